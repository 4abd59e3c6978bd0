//! A stored rule of how bad it is that a prefix is over a limit.

ghost use Rattle.std.specs.Prelude.{◌↔◌, ℕ, ◌≤◌};
ghost use Rattle.watch_rules.specs.Judge.{IsOverLimit, MayJudge, most_severity};

/// The stored function of a judge. It maps the low and the high of a line and the limit that the low reaches, all in
/// bytes or packets, to a severity.
pub type JudgeRule = Box<dyn Fn(u64, u64, u64) -> u32>;

/// What contracts say of a judge.
pub trait Judges {
    /// What it may answer for a low, a high and a limit.
    ghost may_answer: { Self → ℕ → ℕ → ℕ → ℕ → Type 0 };
}

/// A rule of severity. Its function may be called for each low, high and limit of which the limit is at least 1 and at
/// most the low, and the low at most the high. It returns a severity from 0 to 7.
#[derive(Drop)]
pub struct Judge {
    rule: JudgeRule,
    ghost callable: { (lo hi limit : ℕ) → IsOverLimit lo hi limit → pre rule lo hi limit },
    ghost mild: { (lo hi limit severity : ℕ)
        → IsOverLimit lo hi limit → post rule lo hi limit severity → severity ≤ most_severity },
}

impl Judges for Judge {
    ghost may_answer = { λ judge lo hi limit severity. post judge.rule lo hi limit severity };
}

impl Judge {
    /// A judge by the rule: for each limit of at least 1, low of at least the limit and high of at least the low it may
    /// be called, and it returns a severity of at most 7.
    pub fn new(rule: JudgeRule) -> Judge
        requires callable { (lo hi limit : ℕ) → IsOverLimit lo hi limit → pre rule lo hi limit }
        requires mild { (lo hi limit severity : ℕ)
            → IsOverLimit lo hi limit → post rule lo hi limit severity → severity ≤ most_severity }
        ensures rule { (lo hi limit severity : ℕ)
            → ⟦<Judge as Judges>⟧.may_answer result lo hi limit severity ↔ post rule lo hi limit severity }
    {
        Judge { rule }
    }

    /// The severity, as returned by the stored function, of a line with this low and high, in bytes or packets, where
    /// the low is at least the limit.
    pub fn ask(&self, lo: u64, hi: u64, limit: u64) -> u32
        requires some { 1 ≤ limit }
        requires over { limit ≤ lo }
        requires ordered { lo ≤ hi }
        ensures { MayJudge (⟦<Judge as Judges>⟧.may_answer self.now) lo hi limit result }
    {
        answer(&self.rule, lo, hi, limit)
    }
}

// Calls a rule, for arguments that it accepts.
fn answer(rule: &JudgeRule, lo: u64, hi: u64, limit: u64) -> u32
    requires { pre rule.now lo hi limit }
    ensures { post rule.now lo hi limit result }
{
    rule(lo, hi, limit)
}
