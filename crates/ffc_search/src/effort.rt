//! How much a round of a search does.

/// How many values of a variable are guessed at first.
const FIRST_GUESSES: u64 = 4;

/// How many units the first round may take at least, and for each generator.
const FIRST_ALLOWANCE: u64 = 1_024;

const ALLOWANCE_EACH: u64 = 8;

/// Of a round's units, guessing takes one part in so many.
const GUESS_PARTS: u64 = 2;

/// Of a deep round's units, the lines before all cases are completed with one part in so many.
const ROOT_PARTS: u64 = 4;

/// And the lines of a branch with one part in so many.
const BRANCH_PARTS: u64 = 128;

/// How much a round does before it gives up, and how. Each round may take twice the units of the one before. Shallow and deep
/// rounds take turns: a sum over bits wants cases and no S-polynomials, and a chain of products the contrary.
#[derive(Clone, Copy)]
pub struct Effort {
    /// How many units the round may take.
    allowance: u64,
    /// How many values of a variable are guessed.
    guesses: u64,
    /// Whether lines are completed further than by the pairs that simplify them.
    deep: bool,
}

impl Effort {
    /// The effort of the first round, where there are so many generators.
    pub fn first(generators: u64) -> Self {
        Effort {
            allowance: generators
                .saturating_mul(ALLOWANCE_EACH)
                .max(FIRST_ALLOWANCE),
            guesses: FIRST_GUESSES,
            deep: false,
        }
    }

    /// The effort of the round after one with this effort.
    pub fn next(self) -> Self {
        Effort {
            allowance: self.allowance.saturating_mul(2),
            guesses: self.guesses.saturating_add(1),
            deep: !self.deep,
        }
    }

    /// Whether the round is the first one.
    pub fn is_first(self) -> bool {
        self.guesses == FIRST_GUESSES
    }

    /// How many units the round may take.
    pub fn allowance(self) -> u64 {
        self.allowance
    }

    /// How many of them are for guessing.
    pub fn for_guesses(self) -> u64 {
        self.allowance / GUESS_PARTS
    }

    /// With how many the lines before all cases are completed, beside the pairs that simplify.
    pub fn at_root(self) -> u64 {
        self.part(ROOT_PARTS)
    }

    /// With how many the lines of a branch are completed.
    pub fn in_branch(self) -> u64 {
        self.part(BRANCH_PARTS)
    }

    /// How many values of a variable are guessed.
    pub fn guesses(self) -> u64 {
        self.guesses
    }

    /// Whether lines are completed further than by the pairs that simplify them.
    pub fn is_deep(self) -> bool {
        self.deep
    }

    /// Whether values are guessed of the variables of the most uses, and not of those that lead last.
    pub fn guesses_by_use(self) -> bool {
        self.deep
    }

    /// One of so many parts of the units of a deep round.
    fn part(self, parts: u64) -> u64 {
        if self.deep && parts > 0 {
            self.allowance / parts
        } else {
            0
        }
    }
}
