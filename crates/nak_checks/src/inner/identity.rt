// The check of an identity.
ghost use Rattle.std.specs.Prelude.{◌≡◌};
ghost use Rattle.nak.specs.Writer.{is_bad_identity, is_bad_length};

use nak::Identity;

fn bad_length(length: usize) -> bool
    ensures { result ≡ is_bad_length length }
{
    length == 0 || 8 < length
}

// 13, the lengths before the numbers.
#[tactic(auto, unfolding(nak::specs::Writer::is_bad_identity))]
pub fn bad_identity(identity: Identity) -> bool
    ensures { result ≡ is_bad_identity identity }
{
    bad_length(identity.entity_length)
        || bad_length(identity.number_length)
        || !octets::does_fit(identity.entity_length, identity.source)
        || !octets::does_fit(identity.number_length, identity.number)
        || !octets::does_fit(identity.entity_length, identity.destination)
}
