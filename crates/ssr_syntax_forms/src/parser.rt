//! The parser's state: the tokens that are left, and what is written of those that were read.
ghost use Rattle.std.specs.Prelude.{◌≡◌, ◌-◌, true, false, if◌then◌else◌, [], ◌∷◌, Result, Ok, Err, IfOk};
ghost use Rattle.ssr_syntax_forms.specs.Forms.{Test, agrees, at, holds, last_isnt, next, none_is, passes};
ghost use Rattle.ssr_syntax_forms.specs.Parser.{Calls, Finishes, State, Steps, close, comma, comma_separated, listed, mark_of, repeated, since, state_of, taken, token_written, unwritten};
ghost use Rattle.ssr_syntax_forms.specs.Private.Ahead.{Asks, nth, taken_with};
ghost use Rattle.ssr_syntax_forms.specs.declared.fault.Fault.{Fault};
ghost use Rattle.ssr_syntax_forms.specs.declared.fault.Fault.TheVariants as faults;

use crate::fault::Fault;
use crate::places::Place;
use crate::rows::{Joined, MOST_COUNTED, Output};
use crate::tokens::{Token, TokenSet, last_isnt, next, none_is, nth};
use ssr_syntax_kinds::SyntaxKind;
use ssr_syntax_tree::{NodeRow, NodeRows};
use std::alloc::{AllocError, Global};
use std::marker::Model;

/// Reads tokens, and writes the nodes of their tree and its joined tokens. A call that writes may answer want of memory;
/// after an `Err` nothing is known of the state.
#[derive(Drop)]
pub struct Parser<'a> {
    rest: &'a [Token],
    place: Place<'a>,
    out: Output,
}

impl<'a> Model for Parser<'a> {
    ghost use Rattle.ssr_syntax_forms.specs.Parser.{State, state_of};

    ghost Value = { State };

    ghost view = { λ p. state_of (record { rows = p.out.rows; joined = p.out.joined.items; place = p.place }) p.rest.now };
}

/// Where a node begins: how many rows were written there, what number the next token of the grammar had, and which tokens
/// were left.
#[derive(Drop)]
pub struct Mark<'a> {
    made: usize,
    next: u32,
    start: &'a [Token],
}

impl<'a> Model for Mark<'a> {
    ghost use Rattle.ssr_syntax_forms.specs.Parser.{Mark};

    ghost Value = { Mark };

    ghost view = { λ m. record { made = m.made; next = m.next; start = m.start.now } };
}

impl<'a> Parser<'a> {
    /// At the first of the solid tokens of a text whose tokens have these kinds, with nothing written.
    pub fn new(
        alloc: Global,
        tokens: &'a [Token],
        kinds: &'a [SyntaxKind],
    ) -> Result<Parser<'a>, AllocError>
        ensures { IfOk result (λ p. p ≡ state_of (unwritten kinds.entry.now) tokens.entry.now) }
    {
        // code has one to two nodes for each token
        let rows = NodeRows::with_capacity(alloc, tokens.len().saturating_mul(2))?;
        let joined = Vec::new(alloc);
        let place = Place::at(0, kinds)?;
        Ok(Parser {
            rest: tokens,
            place,
            out: Output { rows, joined },
        })
    }

    /// What is written, if no token is left; else `NoTree`.
    pub fn finish(self) -> Result<Output, Fault>
        ensures { Finishes self.entry result }
    {
        if self.rest.is_empty() {
            Ok(self.out)
        } else {
            Err(Fault::NoTree)
        }
    }

    /// A node begins here.
    pub fn start(&self) -> Mark<'a>
        ensures { result ≡ mark_of self.now }
    {
        Mark {
            made: self.out.rows.len(),
            next: self.place.next(),
            start: self.rest,
        }
    }

    /// Puts all since the mark into a node. More rows than are counted are told as want of memory.
    pub fn complete(&mut self, mark: &Mark<'_>, kind: SyntaxKind) -> Result<(), Fault>
        ensures { Steps self.new result (Ok (close kind mark.now self.old)) }
    {
        let below = self.out.rows.len().saturating_sub(mark.made);
        if below > MOST_COUNTED {
            return Err(Fault::Memory);
        }
        let past = self.place.end();
        self.out.rows.push(NodeRow {
            kind,
            parent: 0,
            first: mark.next.min(past),
            past,
            below: below as u32,
        })?;
        Ok(())
    }

    /// The kind of the next token; `END` behind the last one.
    #[inline(always)]
    pub fn current(&self) -> SyntaxKind
        ensures { result ≡ next self.now.rest }
    {
        next(self.rest)
    }

    /// Whether the next token is of this kind.
    #[inline(always)]
    pub fn at(&self, kind: SyntaxKind) -> bool
        ensures { result ≡ passes (at (kind ∷ [])) self.now.rest }
    {
        self.at_any(kind)
    }

    /// Whether the next token is of one of these kinds.
    #[inline(always)]
    #[tactic(auto, using(crate::proofs::Members::at_next))]
    pub fn at_any<S: TokenSet>(&self, set: S) -> bool
        ensures { result ≡ passes (at (S.kinds set)) self.now.rest }
    {
        set.contains(self.current())
    }

    /// Whether the next token is of one of the first kinds, and the one behind it of one of the second.
    #[tactic(auto, using(crate::proofs::Ahead::two_next))]
    pub fn at_two<S: TokenSet, T: TokenSet>(&self, first: S, second: T) -> bool
        ensures { result ≡ passes ((S.kinds first ∷ T.kinds second ∷ []) ∷ []) self.now.rest }
    {
        self.at_any(first) && second.contains(self.nth(1))
    }

    /// The same of three tokens, one behind another.
    #[tactic(auto, using(crate::proofs::Ahead::three_next))]
    pub fn at_three<S: TokenSet, T: TokenSet, U: TokenSet>(
        &self,
        first: S,
        second: T,
        third: U,
    ) -> bool
        ensures { result ≡ passes ((S.kinds first ∷ T.kinds second ∷ U.kinds third ∷ []) ∷ []) self.now.rest }
    {
        self.at_two(first, second) && third.contains(self.nth(2))
    }

    /// The same of four tokens, one behind another.
    #[tactic(auto, using(crate::proofs::Ahead::four_next))]
    pub fn at_four<S: TokenSet, T: TokenSet, U: TokenSet, V: TokenSet>(
        &self,
        first: S,
        second: T,
        third: U,
        fourth: V,
    ) -> bool
        ensures { result ≡ passes ((S.kinds first ∷ T.kinds second ∷ U.kinds third ∷ V.kinds fourth ∷ []) ∷ []) self.now.rest }
    {
        self.at_three(first, second, third) && fourth.contains(self.nth(3))
    }

    /// The kind of the token that so many stand in front of; `END` where there is none.
    fn nth(&self, ahead: usize) -> SyntaxKind
        ensures { result ≡ nth ahead self.now.rest }
    {
        nth(self.rest, ahead)
    }

    /// Takes a token of this kind; `NoTree` where none is next.
    #[inline(always)]
    pub fn expect(&mut self, kind: SyntaxKind) -> Result<(), Fault>
        ensures { Steps self.new result (taken true (kind ∷ []) self.old) }
    {
        self.expect_any(kind)
    }

    /// Takes a token of one of these kinds; `NoTree` where none is next.
    #[inline(always)]
    pub fn expect_any<S: TokenSet>(&mut self, set: S) -> Result<(), Fault>
        ensures { Steps self.new result (taken true (S.kinds set) self.old) }
    {
        let tokens = self.rest;
        match tokens.split_first() {
            Some((first, rest)) if set.contains(first.joined) => {
                self.take(first.joined, first.size, rest)
            }
            _ => Err(Fault::NoTree),
        }
    }

    /// Takes the first part of a token, where both the token and that part are of these kinds; else `NoTree`.
    pub fn expect_part<S: TokenSet>(&mut self, set: S) -> Result<(), Fault>
        ensures { Steps self.new result (taken false (S.kinds set) self.old) }
    {
        let tokens = self.rest;
        match tokens.split_first() {
            Some((first, rest)) if set.contains(first.joined) && set.contains(first.kind) => {
                self.take(first.kind, 1, rest)
            }
            _ => Err(Fault::NoTree),
        }
    }

    /// Takes a token of this kind, if it is next.
    #[inline(always)]
    pub fn eat(&mut self, kind: SyntaxKind) -> Result<(), Fault>
        ensures { Steps self.new result (if passes (at (kind ∷ [])) self.old.rest then taken true (kind ∷ []) self.old else Ok self.old) }
    {
        if self.at(kind) {
            self.expect(kind)
        } else {
            Ok(())
        }
    }

    /// Refuses a next token of these kinds.
    pub fn refuse_at<S: TokenSet>(&self, set: S) -> Result<(), Fault>
        ensures { Steps self.now result (if agrees false (passes (at (S.kinds set)) self.now.rest) then Ok self.now else Err faults.NoTree) }
    {
        if self.at_any(set) {
            Err(Fault::NoTree)
        } else {
            Ok(())
        }
    }

    /// Refuses a next token that is of none of these kinds.
    pub fn expect_at<S: TokenSet>(&self, set: S) -> Result<(), Fault>
        ensures { Steps self.now result (if agrees true (passes (at (S.kinds set)) self.now.rest) then Ok self.now else Err faults.NoTree) }
    {
        if !self.at_any(set) {
            return Err(Fault::NoTree);
        }
        Ok(())
    }

    /// Refuses a token of these kinds, as it is cut from the text, among those since the mark.
    pub fn refuse_since<S: TokenSet>(&self, mark: &Mark<'_>, set: S) -> Result<(), Fault>
        ensures { Steps self.now result (if holds (none_is (S.kinds set)) (since mark.now self.now) then Ok self.now else Err faults.NoTree) }
    {
        if !none_is(self.since(mark), set) {
            return Err(Fault::NoTree);
        }
        Ok(())
    }

    /// Refuses a last token since the mark of these kinds, as it is cut from the text.
    pub fn refuse_last<S: TokenSet>(&self, mark: &Mark<'_>, set: S) -> Result<(), Fault>
        ensures { Steps self.now result (if holds (last_isnt (S.kinds set)) (since mark.now self.now) then Ok self.now else Err faults.NoTree) }
    {
        if !last_isnt(self.since(mark), set) {
            return Err(Fault::NoTree);
        }
        Ok(())
    }

    /// The tokens since the mark.
    fn since<'m>(&self, mark: &Mark<'m>) -> &'m [Token]
        ensures { result.now ≡ since mark.now self.now }
    {
        &mark.start[..mark.start.len().saturating_sub(self.rest.len())]
    }

    /// Takes a token of this kind, joined from so many: the one in front of `rest`, and the others of `rest`.
    fn take(&mut self, kind: SyntaxKind, size: u8, rest: &'a [Token]) -> Result<(), Fault>
        ensures { Steps self.new result (taken_with kind (size - 1) rest.entry.now self.old.out) }
    {
        if size == 1
            && let Some(place) = self.place.behind_alone(kind)
        {
            self.rest = rest;
            self.place = place;
            return Ok(());
        }
        self.take_joined(kind, size, rest)
    }

    /// The same, also of a token that is joined from several.
    fn take_joined(&mut self, kind: SyntaxKind, size: u8, rest: &'a [Token]) -> Result<(), Fault>
        ensures { Steps self.new result (taken_with kind (size - 1) rest.entry.now self.old.out) }
    {
        let more = size.saturating_sub(1);
        if more as usize > rest.len() {
            return Err(Fault::NoTree);
        }
        self.rest = &rest[more as usize..];
        self.write_token(kind, 1 + more)
    }

    /// Writes a token of this kind, joined from so many: it is counted, and put down where it is no single one of the text.
    fn write_token(&mut self, kind: SyntaxKind, size: u8) -> Result<(), Fault>
        ensures { Steps self.new result (Ok (state_of (token_written kind size self.old.out) self.old.rest)) }
    {
        if !self.place.is_alone(kind, size) {
            self.out.joined.push(Joined {
                number: self.place.next(),
                kind,
                size,
            })?;
        }
        self.place = self.place.behind_token(size)?;
        Ok(())
    }

    /// The step again and again, as long as one of these kinds is next. `NoTree` after more turns
    /// than there are tokens left.
    pub fn repeated<S: TokenSet, F: Fn(&mut Parser<'_>) -> Result<(), Fault>>(
        &mut self,
        first: S,
        step: F,
    ) -> Result<(), Fault>
        requires { F.IsAlwaysCallable step }
        ensures { (does : State → Result State Fault) → Calls (F.post step) does
            → Steps self.new result (repeated (at (S.kinds first)) does self.old) }
    {
        self.repeated_while(
            |p: &Parser<'_>|
                ensures { result ≡ passes (at (S.kinds first)) p.now.rest }
            { p.at_any(first) },
            step,
        )
    }

    /// The same, as long as one of the first kinds is next, and one of the second behind it.
    pub fn repeated_two<S: TokenSet, T: TokenSet, F: Fn(&mut Parser<'_>) -> Result<(), Fault>>(
        &mut self,
        first: S,
        second: T,
        step: F,
    ) -> Result<(), Fault>
        requires { F.IsAlwaysCallable step }
        ensures { (does : State → Result State Fault) → Calls (F.post step) does
            → Steps self.new result (repeated ((S.kinds first ∷ T.kinds second ∷ []) ∷ []) does self.old) }
    {
        self.repeated_while(
            |p: &Parser<'_>|
                ensures { result ≡ passes ((S.kinds first ∷ T.kinds second ∷ []) ∷ []) p.now.rest }
            { p.at_two(first, second) },
            step,
        )
    }

    /// The same, as long as the tokens that are left pass.
    #[tactic(auto, using(crate::proofs::Loops::repeat_step, crate::proofs::Loops::repeat_end), unfolding(crate::specs::Parser::repeated))]
    fn repeated_while<P: Fn(&Parser<'_>) -> bool, F: Fn(&mut Parser<'_>) -> Result<(), Fault>>(
        &mut self,
        goes_on: P,
        step: F,
    ) -> Result<(), Fault>
        requires goes_on { P.IsAlwaysCallable goes_on }
        requires step { F.IsAlwaysCallable step }
        ensures { (test : Test) → Asks (P.post goes_on) test → (does : State → Result State Fault) → Calls (F.post step) does
            → Steps self.new result (repeated test does self.old) }
    {
        'turns: for _turn in 0..self.rest.len() + 1 {
            if !goes_on(self) {
                return Ok(());
            }
            step(self)?;
        }
        Err(Fault::NoTree)
    }

    /// Items with commas between them, and one behind the last or not. Each begins with one of these kinds; `NoTree` where
    /// one stands right behind another.
    #[tactic(auto, unfolding(crate::specs::Parser::comma_separated))]
    pub fn comma_list<S: TokenSet, F: Fn(&mut Parser<'_>) -> Result<(), Fault>>(
        &mut self,
        first: S,
        item: F,
    ) -> Result<(), Fault>
        requires { F.IsAlwaysCallable item }
        ensures { (does : State → Result State Fault) → Calls (F.post item) does
            → Steps self.new result (comma_separated (S.kinds first) does self.old) }
    {
        self.repeated(
            first,
            |p: &mut Parser<'_>|
                requires { F.IsAlwaysCallable item }
                ensures { (does : State → Result State Fault) → Calls (F.post item) does
                    → Steps p.new result (listed (S.kinds first) does p.old) }
            {
                item(p)?;
                p.comma(first)
            },
        )
    }

    /// Takes a comma, if one is next. `NoTree` where none is, and one of these kinds begins a further item.
    pub fn comma<S: TokenSet>(&mut self, first: S) -> Result<(), Fault>
        ensures { Steps self.new result (comma (S.kinds first) self.old) }
    {
        if self.at(SyntaxKind::COMMA) {
            self.expect(SyntaxKind::COMMA)
        } else if self.at_any(first) {
            Err(Fault::NoTree)
        } else {
            Ok(())
        }
    }
}
