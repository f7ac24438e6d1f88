// The checks of a list of requests, and of its numbers.
ghost use Rattle.std.specs.Prelude.{◌≡◌, ◌&&◌, not, [], ◌∷◌};
ghost use Rattle.outcomes.specs.Outcome.{accepted};
ghost use Rattle.outcomes.specs.Checks.{first_of, verdict_case};
ghost use Rattle.outcomes.specs.Answered.{answered, yes_or_no};
ghost use Rattle.ranges.specs.Range.{range};
ghost use Rattle.ranges.specs.Store.{pairs, any_above};
ghost use Rattle.nak.specs.Request.{is_metadata, request_checks, requests_checks};
ghost use Rattle.nak.specs.Writer.{is_bad_list};

use nak::is_metadata;
use outcomes::Refusal;
use ranges::MOST_NUMBERS;
use searches::inner::checks::any_above;

// 10.
#[tactic(auto, unfolding(nak::specs::Writer::is_bad_list))]
pub fn bad_list(requests: &[u64]) -> bool
    ensures { result ≡ is_bad_list requests.now }
{
    requests.len() % 2 == 1 || MOST_NUMBERS < requests.len()
}

// The checks of the request (s, e): 3, or 2 unless it is the first for metadata; `none` says that there was none yet. Answers whether
// there is none up to it.
pub fn check_request(none: bool, s: u64, e: u64) -> Result<bool, Refusal>
    ensures { answered yes_or_no result ≡ first_of (request_checks none (range s e)) (accepted (yes_or_no (none && not (is_metadata (range s e))))) }
{
    if e < s {
        return Err(Refusal::StartLargerThanEnd(s, e));
    }
    let metadata = is_metadata(s, e);
    if s == e && !(none && metadata) {
        return Err(Refusal::EmptySegment);
    }
    Ok(none && !metadata)
}

// Each request of a flat list in order.
pub fn check_requests(requests: &[u64]) -> Result<(), Refusal>
    ensures { verdict_case result ≡ first_of (requests_checks (pairs requests.now)) (accepted []) }
{
    let mut none = true;
    for [s, e] in requests.as_chunks::<2>().0 {
        none = check_request(none, *s, *e)?;
    }
    Ok(())
}

// Whether the scope or a number of the list is above top.
pub fn any_number_above(top: u64, start: u64, end: u64, list: &[u64]) -> bool
    ensures { result ≡ any_above top (start ∷ end ∷ list.now) }
{
    top < start || top < end || any_above(list, list.len(), top)
}
