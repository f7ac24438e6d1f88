// What reading and a step hand back.
ghost use Rattle.std.specs.Prelude.{◌≡◌};
ghost use Rattle.nak_parsing.specs.Step.{step_case};
ghost use Rattle.c_values.specs.Output.{flag_out, identity_out, step_out};

use crate::{PusmarkeIdentity, PusmarkeStep};
use nak::Identity;
use octets::LargeFileFlag;

pub fn flag_out(flag: LargeFileFlag) -> u64
    ensures { result ≡ flag_out flag }
{
    match flag {
        LargeFileFlag::Normal => 0,
        LargeFileFlag::Large => 1,
    }
}

impl From<Identity> for PusmarkeIdentity {
    ghost from_gives = { λ identity c. c ≡ identity_out identity };

    fn from(identity: Identity) -> PusmarkeIdentity {
        PusmarkeIdentity {
            entity_length: identity.entity_length,
            number_length: identity.number_length,
            source: identity.source,
            number: identity.number,
            destination: identity.destination,
        }
    }
}

pub fn step_out(step: Option<(u64, u64)>, at: usize) -> PusmarkeStep
    ensures { result ≡ step_out (step_case step) at }
{
    match step {
        Some((start, end)) => PusmarkeStep {
            found: 1,
            start,
            end,
            at,
        },
        None => PusmarkeStep {
            found: 0,
            start: 0,
            end: 0,
            at,
        },
    }
}
