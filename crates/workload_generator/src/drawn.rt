//! What is drawn for a command.
ghost use Rattle.std.specs.Prelude.{◌≡◌};
ghost use Rattle.workload_generator.specs.Drawn.{asked, behind_three, is_submission, kind_at, next_three};

use run_limits::MOST_SUBMITS;
use workload::Draws;

/// The three words that are drawn for a command: by them its actor is chosen, what it asks for, and
/// its key, its slots or its seconds.
#[derive(Clone, Copy, Debug, PartialEq, Eq)]
pub struct Drawn {
    pub actor: u32,
    pub asks: u32,
    pub choice: u32,
}

/// What a command asks for.
#[derive(Clone, Copy, Debug, PartialEq, Eq)]
pub enum Kind {
    Put,
    Append,
    Commit,
    Get,
    Submit,
    Advance,
}

/// What the last digit of a word asks for.
fn kind_of(digit: u32) -> Kind
    ensures { result ≡ kind_at digit }
{
    match digit {
        0..=3 => Kind::Put,
        4 => Kind::Append,
        5 | 6 => Kind::Commit,
        7 => Kind::Get,
        8 => Kind::Submit,
        _ => Kind::Advance,
    }
}

impl Drawn {
    /// Draws the next three words.
    #[tactic(auto, unfolding(crate::specs::Drawn::next_three, crate::specs::Drawn::behind_three))]
    pub fn next(draws: &mut Draws) -> Drawn
        ensures drawn { result ≡ next_three draws.old }
        ensures behind { draws.new ≡ behind_three draws.old }
    {
        let actor = draws.word();
        let asks = draws.word();
        let choice = draws.word();
        Drawn {
            actor,
            asks,
            choice,
        }
    }

    /// What the command asks for behind so many submissions.
    #[tactic(auto, unfolding(crate::specs::Drawn::asked))]
    pub fn kind(&self, submissions: u32) -> Kind
        ensures { result ≡ asked submissions self.now }
    {
        match kind_of(self.asks % 10) {
            Kind::Submit if MOST_SUBMITS <= u64::from(submissions) => Kind::Commit,
            kind => kind,
        }
    }

    /// Whether a submission is drawn.
    pub fn is_submission(&self) -> bool
        ensures { result ≡ is_submission self.now }
    {
        self.asks % 10 == 8
    }
}
