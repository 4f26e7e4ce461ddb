//! Which bytes the texts may have.
ghost use Rattle.std.specs.Prelude.{◌≡◌, ℕ, ◌+◌, ◌<◌, ◌≤◌, ◌↔◌, ◌&&◌, nat_le, List, [], ◌∷◌, length, IsTrue};
ghost use Rattle.std.specs.List.{list_all};
ghost use Rattle.board_layout.specs.Types.{is_printable};
ghost use Rattle.board_names.specs.Names.{IsFileName, IsPath, IsServiceName, IsNodeName, IsBase64Url, is_file_byte, is_path_byte, is_base64url_byte};

/// Whether these bytes make a `FileName`.
pub(crate) fn is_file_name(value: &[u8]) -> bool
    requires { length value.now ≤ 255 }
    ensures { IsTrue result ↔ IsFileName value.now }
{
    if value.is_empty() {
        return false;
    }
    if value == b".".as_slice() {
        return false;
    }
    if value == b"..".as_slice() {
        return false;
    }
    has_file_bytes(value)
}

/// Whether these bytes make a `Path`.
pub(crate) fn is_path(value: &[u8]) -> bool
    requires { length value.now ≤ 255 }
    ensures { IsTrue result ↔ IsPath value.now }
{
    if value.is_empty() {
        return false;
    }
    has_path_bytes(value)
}

/// Whether these bytes make a `ServiceName`.
pub(crate) fn is_service_name(value: &[u8]) -> bool
    requires { length value.now ≤ 255 }
    ensures { IsTrue result ↔ IsServiceName value.now }
{
    if value.is_empty() {
        return false;
    }
    has_printable_bytes(value)
}

/// Whether these bytes make a `NodeName`.
pub(crate) fn is_node_name(value: &[u8]) -> bool
    requires { length value.now ≤ 128 }
    ensures { IsTrue result ↔ IsNodeName value.now }
{
    has_printable_bytes(value)
}

/// Whether these bytes make a `Base64Url`.
pub(crate) fn is_base64url(value: &[u8]) -> bool
    requires { length value.now ≤ 255 }
    ensures { IsTrue result ↔ IsBase64Url value.now }
{
    if value.is_empty() {
        return false;
    }
    has_base64url_bytes(value)
}

fn has_file_bytes(value: &[u8]) -> bool
    ensures { result ≡ list_all is_file_byte value.now }
{
    value
        .iter()
        .all(|b| 0x20 <= *b && *b <= 0x7E && *b != b'\\' && *b != b'/')
}

fn has_path_bytes(value: &[u8]) -> bool
    ensures { result ≡ list_all is_path_byte value.now }
{
    value
        .iter()
        .all(|b| 0x20 <= *b && *b <= 0x7E && *b != b'\\')
}

fn has_printable_bytes(value: &[u8]) -> bool
    ensures { result ≡ list_all is_printable value.now }
{
    value.iter().all(|b| 0x20 <= *b && *b <= 0x7E)
}

fn has_base64url_bytes(value: &[u8]) -> bool
    ensures { result ≡ list_all is_base64url_byte value.now }
{
    value.iter().all(|b| {
        b'A' <= *b && *b <= b'Z'
            || b'a' <= *b && *b <= b'z'
            || b'0' <= *b && *b <= b'9'
            || *b == b'-'
            || *b == b'_'
    })
}
