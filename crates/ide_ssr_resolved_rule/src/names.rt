//! Names of placeholders, and where each stands among them.
ghost use Rattle.std.specs.Prelude.{◌≡◌, ◌<◌, ◌++◌, [], ◌∷◌, length, IfOk, IfSome, bytes_eq, map, string_bytes};
ghost use Rattle.std.specs.List.{position_from};
ghost use Rattle.ide_ssr_resolved_rule.specs.Names.{has};
ghost use Rattle.ide_ssr_resolved_rule.specs.StandIns.{is_stand_in, stand_in_of};

use crate::stand_ins::stand_in_name;
use std::alloc::{AllocError, Global};
use std::collections::BTreeMap;
use std::marker::Model;

/// The name of a placeholder, without its `$`.
#[derive(Drop)]
pub struct Name<'a> {
    pub text: &'a str,
}

impl<'a> Model for Name<'a> {
    ghost use Rattle.std.specs.Prelude.{List, ℕ};

    ghost Value = { List ℕ };

    ghost view = { λ name. name.text.now };
}

/// Names of placeholders, in order. Where one stands is looked up by its text, in logarithmic time.
#[derive(Drop)]
pub struct Names<'a> {
    names: Vec<Name<'a>>,
    /// The first place of each name.
    places: BTreeMap<&'a str, usize>,
}

impl<'a> Model for Names<'a> {
    ghost use Rattle.std.specs.Prelude.{List, ℕ, ◌≡◌, bytes_eq};
    ghost use Rattle.std.specs.List.{position_from};
    ghost use Rattle.std.specs.BTreeMap.{get_by};
    ghost use Rattle.std.specs.Ordering.{nat_cmp};
    ghost use Rattle.std.specs.Cmp.Lexicographic.{slice_cmp};

    ghost Value = { List (List ℕ) };

    ghost view = { λ names. names.names.items };

    ghost invariant = { λ names. (text : List ℕ) → get_by (λ name. slice_cmp nat_cmp text name.now) names.places ≡ position_from (bytes_eq text) 0 names.names.items };
}

impl<'a> Names<'a> {
    /// No names.
    pub fn new(alloc: Global) -> Names<'a>
        ensures { result ≡ [] }
    {
        Names {
            names: Vec::new(alloc),
            places: BTreeMap::new(alloc),
        }
    }

    /// The names of these texts.
    pub fn of(alloc: Global, texts: &'a [String]) -> Result<Names<'a>, AllocError>
        ensures { IfOk result (λ names. names ≡ map string_bytes texts.now) }
    {
        let mut names = Names::new(alloc);
        for text in texts {
            names = names.with(text.as_str())?;
        }
        Ok(names)
    }

    /// These names and one more behind them.
    pub fn with(self, name: &'a str) -> Result<Names<'a>, AllocError>
        ensures { IfOk result (λ names. names ≡ self.entry ++ name.now ∷ []) }
    {
        let is_known = self.has(name);
        let Names {
            mut names,
            mut places,
        } = self;
        let place = names.len();
        names.push(Name { text: name })?;
        if !is_known {
            places.insert(name, place)?;
        }
        Ok(Names { names, places })
    }

    /// The names, in order.
    pub fn as_slice(&self) -> &[Name<'a>]
        ensures { result.now ≡ self.now }
    {
        self.names.as_slice()
    }

    /// The names as texts of their own.
    pub fn owned(&self, alloc: Global) -> Result<Vec<String>, AllocError>
        ensures { IfOk result (λ v. map string_bytes v.items ≡ self.now) }
    {
        let mut texts = Vec::new(alloc);
        for name in self.as_slice() {
            texts.push(String::from_str(alloc, name.text)?)?;
        }
        Ok(texts)
    }

    /// Where a name stands first.
    fn place(&self, name: &str) -> Option<usize>
        ensures { result ≡ position_from (bytes_eq name.now) 0 self.now }
    {
        self.places.get(name).copied()
    }

    /// Whether one of the names is this one.
    pub fn has(&self, name: &str) -> bool
        ensures { result ≡ has self.now name.now }
    {
        self.place(name).is_some()
    }

    /// Where the first name stands whose stand-in the text is.
    pub fn place_of_stand_in(&self, text: &str) -> Option<usize>
        ensures place { result ≡ position_from (λ name. bytes_eq text.now (stand_in_of name)) 0 self.now }
        ensures within { IfSome result (λ place. place < length self.now) }
    {
        match stand_in_name(text) {
            Some(name) => self.place(name),
            None => None,
        }
    }

    /// Whether the text is the stand-in of one of the names.
    pub fn has_stand_in(&self, text: &str) -> bool
        ensures { result ≡ is_stand_in self.now text.now }
    {
        self.place_of_stand_in(text).is_some()
    }
}
