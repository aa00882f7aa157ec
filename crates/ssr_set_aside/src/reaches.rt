//! The bytes that no match may touch.
ghost use Rattle.std.specs.Prelude.{◌≡◌, map};
ghost use Rattle.ssr_base_trees.specs.Origins.{span_of};
ghost use Rattle.ssr_set_aside.specs.SetAside.{BeginInOrder};

use ssr_syntax_kinds::TextRange;
use std::marker::Model;

/// Of each part set aside its reach: the bytes that no match may touch. They are in the order of where they begin, and may share
/// bytes.
#[derive(Debug, Drop)]
pub struct Reaches {
    ranges: Vec<TextRange>,
}

impl Model for Reaches {
    ghost use Rattle.std.specs.Prelude.{List, map};
    ghost use Rattle.ssr_base_trees.specs.Origins.{Span, span_of};
    ghost use Rattle.ssr_set_aside.specs.SetAside.{BeginInOrder};

    ghost Value = { List Span };

    ghost view = { λ reaches. map span_of reaches.ranges.items };

    ghost invariant = { λ reaches. BeginInOrder 0 (map span_of reaches.ranges.items) };
}

impl Reaches {
    /// Reaches with these ranges, of which none begins before the one in front of it.
    pub fn new(ranges: Vec<TextRange>) -> Reaches
        requires { BeginInOrder 0 (map span_of ranges.items) }
        ensures { result ≡ map span_of ranges.items }
    {
        Reaches { ranges }
    }

    /// The ranges, in order.
    pub fn ranges(&self) -> &[TextRange]
        ensures ranges { map span_of result.now ≡ self.now }
        ensures order { BeginInOrder 0 self.now }
    {
        self.ranges.as_slice()
    }
}
