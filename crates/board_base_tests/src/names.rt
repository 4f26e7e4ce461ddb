//! What is refused, how names are spelled, and what the errors print.
use crate::layout::prints;
use crate::same::same;
use board_names::{
    ArcSyncPolicyCreationError, AttributeError, Base64Url, BlackboardCreateError,
    BlackboardOpenError, CommunicationChannelCreateError, CommunicationChannelOpenError,
    CommunicationChannelReceiveError, CommunicationChannelSendError, Configuration,
    DeserializeError, DomainError, EntryHandleError, EntryHandleMutError, EventId, FileName,
    ListenerCreateError, ListenerWaitError, MAX_ATTRIBUTE_KEY_LENGTH, MAX_ATTRIBUTE_VALUE_LENGTH,
    MAX_ATTRIBUTES, MAX_NODE_NAME_LENGTH, MAX_SERVICE_NAME_LENGTH, MonitoringCreateCleanerError,
    MonitoringCreateMonitorError, MonitoringCreateTokenError, MonitoringStateError,
    NamedConceptConfiguration, NamedConceptDoesExistError, NamedConceptListError,
    NamedConceptPathHintRemoveError, NamedConceptRemoveError, NodeName, NotifierCreateError,
    NotifierNotifyError, Path, ReaderCreateError, RegistryError, SemanticStringError,
    SerializeError, ServiceName, StaticStorageCreateError, StaticStorageOpenError,
    StaticStorageReadError, StaticStorageUnlockError, TriggerId, WriterCreateError, path_and_back,
};
use std::collections::HashMap;
use std::test::Fail;

const INVALID: Option<SemanticStringError> = Some(SemanticStringError::InvalidContent);

const TOO_LONG: Option<SemanticStringError> = Some(SemanticStringError::ExceedsMaximumLength);

#[test]
fn file_names_follow_their_rule(rt: HostRuntime) -> Result<(), Fail> {
    let longest = [b'a'; 255];
    let slashes = [b'/'; 256];
    let cases: [(&[u8], Option<SemanticStringError>); 10] = [
        (b"abc", None),
        (b"...", None),
        (&longest, None),
        (b"", INVALID),
        (b".", INVALID),
        (b"..", INVALID),
        (b"a/b", INVALID),
        (b"a\\b", INVALID),
        (b"a\x7f", INVALID),
        (&slashes, TOO_LONG),
    ];
    for (text, refusal) in cases {
        same(&rt, &FileName::new(text).err(), &refusal);
    }
    Ok(())
}

#[test]
fn paths_follow_their_rule(rt: HostRuntime) -> Result<(), Fail> {
    let longest = [b'/'; 255];
    let slashes = [b'/'; 256];
    let cases: [(&[u8], Option<SemanticStringError>); 6] = [
        (b"/tmp/a b", None),
        (b"..", None),
        (&longest, None),
        (b"", INVALID),
        (b"a\\b", INVALID),
        (&slashes, TOO_LONG),
    ];
    for (text, refusal) in cases {
        same(&rt, &Path::new(text).err(), &refusal);
    }
    Ok(())
}

#[test]
fn hashes_in_letters_follow_their_rule(rt: HostRuntime) -> Result<(), Fail> {
    let pluses = [b'+'; 256];
    let cases: [(&[u8], Option<SemanticStringError>); 6] = [
        (b"AZaz09-_", None),
        (b"", INVALID),
        (b"a+b", INVALID),
        (b"a/b", INVALID),
        (b"a=", INVALID),
        (&pluses, TOO_LONG),
    ];
    for (text, refusal) in cases {
        same(&rt, &Base64Url::new(text).err(), &refusal);
    }
    Ok(())
}

#[test]
fn services_and_nodes_follow_their_rules(rt: HostRuntime) -> Result<(), Fail> {
    let cases: [(
        &str,
        Option<SemanticStringError>,
        Option<SemanticStringError>,
    ); 4] = [
        ("vehicle/state \\ ~", None, None),
        ("", INVALID, None),
        ("a\tb", INVALID, INVALID),
        ("\u{e4}", INVALID, INVALID),
    ];
    for (text, of_service, of_node) in cases {
        same(&rt, &ServiceName::new(text).err(), &of_service);
        same(&rt, &NodeName::new(text).err(), &of_node);
    }
    Ok(())
}

#[test]
fn names_are_spelled_and_read_back(rt: HostRuntime) -> Result<(), Fail> {
    let suffix = FileName::new(b".static_storage")?;
    let config = Configuration::with_suffix(&suffix);
    let name = FileName::new(b"abc")?;
    let path = config.path_for(&name);
    same(
        &rt,
        &path.as_bytes(),
        &b"/tmp/iceoryx2/iox2_abc.static_storage".as_slice(),
    );
    same(&rt, &config.extract_name_from_path(&path), &Some(name));
    same(&rt, &path_and_back(&config, &name), &Some(name));
    let file = FileName::new(b"iox2_abc.static_storage")?;
    same(&rt, &config.extract_name_from_file(&file), &Some(name));
    same(&rt, &config.extract_name_from_file(&name), &None);
    Ok(())
}

#[test]
fn parts_are_replaced(rt: HostRuntime) -> Result<(), Fail> {
    let one = FileName::new(b"one")?;
    let two = FileName::new(b"two")?;
    let folder = Path::new(b"/run")?;
    let config = Configuration::with_suffix(&one);
    same(
        &rt,
        &config.get_path_hint().as_bytes(),
        &b"/tmp/iceoryx2".as_slice(),
    );
    let config = config.prefix(&one).suffix(&two).path_hint(&folder);
    same(&rt, config.get_prefix(), &one);
    same(&rt, config.get_suffix(), &two);
    same(&rt, config.get_path_hint(), &folder);
    Ok(())
}

#[test]
fn trigger_ids_are_numbers(rt: HostRuntime) -> Result<(), Fail> {
    let id: EventId = TriggerId::new(64);
    same(&rt, &id.as_value(), &64);
    same(&rt, &TriggerId::default().as_value(), &0);
    assert!(rt; TriggerId::default() < id);
    Ok(())
}

#[test]
fn services_are_looked_up_by_name(rt: HostRuntime) -> Result<(), Fail> {
    let mut ports = HashMap::new(rt.alloc());
    ports.insert(ServiceName::new("door")?, 7)?;
    same(
        &rt,
        &ports.get(&ServiceName::new("door")?).copied(),
        &Some(7),
    );
    same(&rt, &ports.get(&ServiceName::new("wall")?).copied(), &None);
    Ok(())
}

#[test]
fn errors_of_names_print_their_names(rt: HostRuntime) -> Result<(), Fail> {
    let alloc = rt.alloc();
    let error = SemanticStringError::InvalidContent;
    prints(&rt, alloc, &error, "SemanticStringError::InvalidContent")?;
    let error = RegistryError::OutOfMemory;
    prints(&rt, alloc, &error, "RegistryError::OutOfMemory")?;
    let error = NamedConceptDoesExistError::UnderlyingResourcesBeingSetUp;
    let text = "NamedConceptDoesExistError::UnderlyingResourcesBeingSetUp";
    prints(&rt, alloc, &error, text)?;
    let error = NamedConceptListError::InternalError;
    prints(&rt, alloc, &error, "NamedConceptListError::InternalError")?;
    let error = NamedConceptRemoveError::InsufficientPermissions;
    let text = "NamedConceptRemoveError::InsufficientPermissions";
    prints(&rt, alloc, &error, text)?;
    let error = NamedConceptPathHintRemoveError::InternalError;
    let text = "NamedConceptPathHintRemoveError::InternalError";
    prints(&rt, alloc, &error, text)?;
    Ok(())
}

#[test]
fn errors_of_storage_and_monitoring_print_their_names(rt: HostRuntime) -> Result<(), Fail> {
    let alloc = rt.alloc();
    let error = StaticStorageCreateError::AlreadyExists;
    prints(
        &rt,
        alloc,
        &error,
        "StaticStorageCreateError::AlreadyExists",
    )?;
    let error = StaticStorageOpenError::DoesNotExist;
    prints(&rt, alloc, &error, "StaticStorageOpenError::DoesNotExist")?;
    let error = StaticStorageReadError::BufferTooSmall;
    prints(&rt, alloc, &error, "StaticStorageReadError::BufferTooSmall")?;
    let error = StaticStorageUnlockError::NoSpaceLeft { taken: 2, given: 3 };
    prints(&rt, alloc, &error, "StaticStorageUnlockError::NoSpaceLeft")?;
    let error = MonitoringCreateTokenError::SystemCorrupted;
    let text = "MonitoringCreateTokenError::SystemCorrupted";
    prints(&rt, alloc, &error, text)?;
    let error = MonitoringCreateCleanerError::InstanceStillAlive;
    let text = "MonitoringCreateCleanerError::InstanceStillAlive";
    prints(&rt, alloc, &error, text)?;
    let error = MonitoringCreateMonitorError::Interrupt;
    prints(
        &rt,
        alloc,
        &error,
        "MonitoringCreateMonitorError::Interrupt",
    )?;
    let error = MonitoringStateError::Interrupt;
    prints(&rt, alloc, &error, "MonitoringStateError::Interrupt")?;
    Ok(())
}

#[test]
fn errors_of_channels_and_events_print_their_names(rt: HostRuntime) -> Result<(), Fail> {
    let alloc = rt.alloc();
    let error = CommunicationChannelSendError::ReceiverCacheIsFull;
    let text = "CommunicationChannelSendError::ReceiverCacheIsFull";
    prints(&rt, alloc, &error, text)?;
    let error = CommunicationChannelReceiveError::MessageCorrupt;
    let text = "CommunicationChannelReceiveError::MessageCorrupt";
    prints(&rt, alloc, &error, text)?;
    let error = CommunicationChannelCreateError::AlreadyExists;
    let text = "CommunicationChannelCreateError::AlreadyExists";
    prints(&rt, alloc, &error, text)?;
    let error = CommunicationChannelOpenError::DoesNotExist;
    let text = "CommunicationChannelOpenError::DoesNotExist";
    prints(&rt, alloc, &error, text)?;
    let error = NotifierNotifyError::Disconnected;
    prints(&rt, alloc, &error, "NotifierNotifyError::Disconnected")?;
    let error = NotifierCreateError::DoesNotExist;
    prints(&rt, alloc, &error, "NotifierCreateError::DoesNotExist")?;
    let error = ListenerWaitError::InterruptSignal;
    prints(&rt, alloc, &error, "ListenerWaitError::InterruptSignal")?;
    let error = ListenerCreateError::NumbersSpent;
    prints(&rt, alloc, &error, "ListenerCreateError::NumbersSpent")?;
    Ok(())
}

#[test]
fn errors_of_services_print_their_names(rt: HostRuntime) -> Result<(), Fail> {
    let alloc = rt.alloc();
    let error = ArcSyncPolicyCreationError::InsufficientResources;
    let text = "ArcSyncPolicyCreationError::InsufficientResources";
    prints(&rt, alloc, &error, text)?;
    let error = SerializeError::OutOfMemory;
    prints(&rt, alloc, &error, "SerializeError::OutOfMemory")?;
    let error = DeserializeError::InternalError;
    prints(&rt, alloc, &error, "DeserializeError::InternalError")?;
    let error = AttributeError::InvalidText;
    prints(&rt, alloc, &error, "AttributeError::InvalidText")?;
    let error = DomainError::NumbersSpent;
    prints(&rt, alloc, &error, "DomainError::NumbersSpent")?;
    Ok(())
}

#[test]
fn errors_of_boards_print_their_names(rt: HostRuntime) -> Result<(), Fail> {
    let alloc = rt.alloc();
    let error = BlackboardCreateError::HangsInCreation;
    prints(&rt, alloc, &error, "BlackboardCreateError::HangsInCreation")?;
    let error = BlackboardOpenError::IncompatibleKeys;
    prints(&rt, alloc, &error, "BlackboardOpenError::IncompatibleKeys")?;
    let error = ReaderCreateError::ThingUnknown(7);
    prints(&rt, alloc, &error, "ReaderCreateError::ThingUnknown")?;
    let error = WriterCreateError::ExceedsMaxSupportedWriters;
    let text = "WriterCreateError::ExceedsMaxSupportedWriters";
    prints(&rt, alloc, &error, text)?;
    let error = EntryHandleError::EntryDoesNotExist;
    prints(&rt, alloc, &error, "EntryHandleError::EntryDoesNotExist")?;
    let error = EntryHandleMutError::HandleAlreadyExists;
    let text = "EntryHandleMutError::HandleAlreadyExists";
    prints(&rt, alloc, &error, text)?;
    Ok(())
}

#[test]
fn refusals_of_texts_have_their_numbers(rt: HostRuntime) {
    same(&rt, &(SemanticStringError::InvalidContent as u8), &1);
    same(&rt, &(SemanticStringError::ExceedsMaximumLength as u8), &2);
}

#[test]
fn limits_are_as_published(rt: HostRuntime) {
    same(
        &rt,
        &(MAX_SERVICE_NAME_LENGTH, MAX_NODE_NAME_LENGTH),
        &(255, 128),
    );
    same(&rt, &(MAX_ATTRIBUTES, MAX_ATTRIBUTE_KEY_LENGTH), &(8, 64));
    same(&rt, &MAX_ATTRIBUTE_VALUE_LENGTH, &256);
}
