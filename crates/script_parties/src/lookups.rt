//! What names and nodes are.
ghost use Rattle.std.specs.Prelude.{◌≡◌, ◌<◌};
ghost use Rattle.indexmap.specs.IndexSet.{spare};
ghost use Rattle.script_parties.specs.Named.{node_number, nodes_with};

use board_layout::Text;
use board_model::{Kind, Name, Thing};
use board_names::ServiceName;
use indexmap::IndexSet;

/// A thing of a board, under its party and its name.
pub type Held = Thing<Name, Name>;

/// What is found of a thing that a party holds: its board and its kind, without the names.
#[derive(Clone, Copy, Debug, PartialEq, Eq)]
pub struct FoundThing {
    pub board: u64,
    pub kind: Kind,
}

/// The number of a party that is a node, or the next number.
pub(crate) fn node_for(party: &Name, nodes: &IndexSet<Name>) -> u64
    ensures { result ≡ node_number party.now nodes.now.keys }
{
    let count = nodes.len() as u64;
    match nodes.get_index_of(party) {
        Some(place) => place as u64 + 1,
        None => count + 1,
    }
}

/// Puts a party behind the nodes, where it is none. Takes no memory: there is room.
pub(crate) fn join(party: Name, nodes: &mut IndexSet<Name>)
    requires { 0 < spare nodes.old }
    ensures { nodes.new.keys ≡ nodes_with party nodes.old.keys }
{
    match nodes.get_index_of(&party) {
        Some(_) => {}
        None => {
            let Ok(_) = nodes.insert(party) else {
                // There is room.
                unreachable!()
            };
        }
    }
}

/// The text of a service's name.
pub(crate) fn name_text(name: &ServiceName) -> Text<255>
    ensures { result ≡ name.now }
{
    Text::of(name.as_bytes())
}
