// The name and the payload of a datagram, as the parts of it that hold them.
#![tactic(auto)]

ghost use Rattle.std.specs.Prelude.{◌≡◌};
ghost use Rattle.datagram.specs.Limits.{max_payload, max_fragments};
ghost use Rattle.datagram.specs.Read.{read_datagram_lem};
ghost use Rattle.parts.specs.Parts.{name_place_lem, payload_place_lem, name_of, payload_of};

use datagram::{MAX_FRAGMENTS, MAX_PAYLOAD, Place};

const NOWHERE: Place = Place { at: 0, len: 0 };

// Where the name and the payload stand: nowhere, for a refused datagram.
fn places(d: &[u8]) -> (Place, Place)
    ensures name { result.0 ≡ name_place_lem (read_datagram_lem max_payload max_fragments d.now) }
    ensures payload { result.1 ≡ payload_place_lem (read_datagram_lem max_payload max_fragments d.now) }
{
    match datagram::read_datagram(d, MAX_PAYLOAD, MAX_FRAGMENTS) {
        Ok(h) => (h.name, h.payload),
        Err(_) => (NOWHERE, NOWHERE),
    }
}

// The name, as the part of the datagram that holds it: empty for a refused datagram, and for a fragment above 0.
pub fn name_part(d: &[u8]) -> &[u8]
    ensures { result.now ≡ name_of d.now }
{
    let (name, _) = places(d);
    datagram::part_at(d, name)
}

// The payload of a small message, or the data of a fragment, as the part of the datagram that holds it: empty for a refused datagram.
pub fn payload_part(d: &[u8]) -> &[u8]
    ensures { result.now ≡ payload_of d.now }
{
    let (_, payload) = places(d);
    datagram::part_at(d, payload)
}
