// The brackets that are open in a text, as a stack.
ghost use Rattle.std.specs.Prelude.{◌≡◌, ◌<◌, [], ◌∷◌, ◌++◌, length, MatchOption};
ghost use Rattle.base.specs.rules.Limits.{nested_levels};

use base::limit::NESTED_LEVELS;
use characters::Bracket;
use std::marker::Model;

// An open bracket and its place.
#[derive(Clone, Copy)]
pub struct Open {
    pub bracket: Bracket,
    pub place: usize,
}

// The open brackets from the outermost to the innermost; never more than nest.
#[derive(Drop)]
pub struct OpenBrackets {
    open: [Open; NESTED_LEVELS],
    depth: usize,
}

impl Model for OpenBrackets {
    ghost use Rattle.std.specs.Prelude.{◌≤◌, List, length, take};
    ghost use Rattle.lexer.specs.declared.open.Open.{Open};

    ghost Value = { List Open };

    ghost view = { λ s. take s.depth s.open };

    ghost invariant = { λ s. s.depth ≤ length s.open };
}

impl OpenBrackets {
    pub fn new() -> Self
        ensures { result ≡ [] }
    {
        OpenBrackets {
            open: [Open {
                bracket: Bracket::Round,
                place: 0,
            }; NESTED_LEVELS],
            depth: 0,
        }
    }

    pub fn depth(&self) -> usize
        ensures { result ≡ length self.now }
    {
        self.depth
    }

    pub fn push(&mut self, bracket: Bracket, place: usize)
        requires { length self.old < nested_levels }
        ensures { self.new ≡ self.old ++ record { bracket = bracket; place = place } ∷ [] }
    {
        self.open[self.depth] = Open { bracket, place };
        self.depth += 1;
    }

    // The innermost one, which is open no more.
    pub fn pop(&mut self) -> Option<Open>
        ensures { MatchOption result (self.old ≡ []) (λ o. self.old ≡ self.new ++ o ∷ []) }
    {
        if self.depth == 0 {
            return None;
        }
        self.depth -= 1;
        Some(self.open[self.depth])
    }
}
