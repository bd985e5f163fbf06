//! How many submissions were issued at a broker, and from which of them the sequence numbers of a
//! second count.
ghost use Rattle.std.specs.Prelude.{◌≡◌};
ghost use Rattle.job_commands.specs.Rows.{mark_now};

/// The second of the last submission at a broker, and how many were issued there before that
/// second.
#[derive(Clone, Copy, Debug, PartialEq, Eq)]
pub struct Mark {
    pub second: u64,
    pub count: u64,
}

/// How many submissions were issued at a broker, and its mark.
#[derive(Clone, Copy, Debug, PartialEq, Eq)]
pub(crate) struct Tally {
    pub issued: u64,
    pub mark: Mark,
}

/// A broker at which no submission was issued.
pub(crate) const UNISSUED: Tally = Tally {
    issued: 0,
    mark: Mark {
        second: 0,
        count: 0,
    },
};

/// The mark of a broker for a submission at this second: the sequence numbers begin anew in each
/// (Flux RFC 19).
pub(crate) fn mark_now(tally: Tally, now: u64) -> Mark
    ensures { result ≡ mark_now tally.mark tally.issued now }
{
    if tally.mark.second == now {
        tally.mark
    } else {
        Mark {
            second: now,
            count: tally.issued,
        }
    }
}
