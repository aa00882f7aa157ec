//! The functions that read names and paths.
ghost use Rattle.ssr_syntax_types.specs.Paths as form;
ghost use Rattle.ssr_syntax_forms.specs.Runs.{Runs, RunsAnywhere, RunsFrom};

use crate::goals::{Goal, PathPlace};
use crate::reader::Reader;
use ssr_syntax_forms::{Fault, Mark, Parser, TokenSet};
use ssr_syntax_kinds::SyntaxKind;
use ssr_syntax_kinds::SyntaxKind::*;

/// The words that name something in a path.
#[derive(Clone, Copy)]
pub struct PathNames;

impl TokenSet for PathNames {
    ghost kinds = { λ _. form.path_names };

    #[inline(always)]
    fn contains(self, kind: SyntaxKind) -> bool {
        matches!(kind, IDENT | SELF_KW | SELF_TYPE_KW | SUPER_KW | CRATE_KW)
    }
}

/// What begins with an angle bracket that opens.
#[derive(Clone, Copy)]
pub struct OpenAngle;

impl TokenSet for OpenAngle {
    ghost kinds = { λ _. form.open_angle };

    #[inline(always)]
    fn contains(self, kind: SyntaxKind) -> bool {
        matches!(kind, L_ANGLE | SHL)
    }
}

/// What begins with an angle bracket that closes.
#[derive(Clone, Copy)]
pub struct CloseAngle;

impl TokenSet for CloseAngle {
    ghost kinds = { λ _. form.close_angle };

    #[inline(always)]
    fn contains(self, kind: SyntaxKind) -> bool {
        matches!(kind, R_ANGLE | SHR | GTEQ | SHREQ)
    }
}

/// What a path begins with.
#[derive(Clone, Copy)]
pub struct PathFirst;

impl TokenSet for PathFirst {
    ghost kinds = { λ _. form.path_first };

    #[inline(always)]
    #[tactic(auto, unfolding(crate::specs::Paths::path_first))]
    fn contains(self, kind: SyntaxKind) -> bool {
        matches!(
            kind,
            IDENT | SELF_KW | SELF_TYPE_KW | SUPER_KW | CRATE_KW | COLON2 | L_ANGLE | SHL
        )
    }
}

/// What a type of the stated language begins with.
#[derive(Clone, Copy)]
struct StatedTypeFirst;

impl TokenSet for StatedTypeFirst {
    ghost kinds = { λ _. form.stated_type_first };

    #[inline(always)]
    #[tactic(auto, unfolding(crate::specs::Paths::stated_type_first))]
    fn contains(self, kind: SyntaxKind) -> bool {
        matches!(
            kind,
            AMP | AMP2 | STAR | L_PAREN | L_BRACK | BANG | UNDERSCORE | DYN_KW | IMPL_KW
        ) || PathFirst.contains(kind)
    }
}

/// What else a type of all of Rust begins with.
#[derive(Clone, Copy)]
struct WholeTypeWords;

impl TokenSet for WholeTypeWords {
    ghost kinds = { λ _. form.whole_type_words };

    #[inline(always)]
    fn contains(self, kind: SyntaxKind) -> bool {
        matches!(kind, FOR_KW | FN_KW | UNSAFE_KW | EXTERN_KW)
    }
}

/// What a type begins with; with `true`, where all of Rust is read.
#[derive(Clone, Copy)]
pub struct TypeFirst(pub bool);

impl TokenSet for TypeFirst {
    ghost kinds = { λ s. form.type_first s.0 };

    #[inline(always)]
    #[tactic(auto, using(ssr_syntax_forms::proofs::Shared::mem_append, ssr_syntax_forms::proofs::Shared::mem_where_whole), unfolding(crate::specs::Paths::type_first))]
    fn contains(self, kind: SyntaxKind) -> bool {
        StatedTypeFirst.contains(kind) || self.0 && WholeTypeWords.contains(kind)
    }
}

/// What generic arguments of a type begin with, without `::`.
#[derive(Clone, Copy)]
struct GenericsFirst;

impl TokenSet for GenericsFirst {
    ghost kinds = { λ _. form.generics_first };

    #[inline(always)]
    fn contains(self, kind: SyntaxKind) -> bool {
        matches!(kind, L_ANGLE | SHL | SHLEQ)
    }
}

/// NAME: an identifier.
#[tactic(auto, unfolding(crate::specs::Paths::name))]
pub fn name<R: Reader>(goals: &R, p: &mut Parser<'_>) -> Result<(), Fault>
    requires { R.can_read goals.now }
    ensures { Runs (R.reads goals.now) form.name p.old p.new result }
{
    let m = p.start();
    p.expect(IDENT)?;
    p.complete(&m, NAME)
}

/// NAME_REF: an identifier.
#[tactic(auto, unfolding(crate::specs::Paths::name_ref))]
pub fn name_ref<R: Reader>(goals: &R, p: &mut Parser<'_>) -> Result<(), Fault>
    requires { R.can_read goals.now }
    ensures { Runs (R.reads goals.now) form.name_ref p.old p.new result }
{
    let m = p.start();
    p.expect(IDENT)?;
    p.complete(&m, NAME_REF)
}

/// NAME_REF: a number, of a field without a name.
#[tactic(auto, unfolding(crate::specs::Paths::number_ref))]
pub fn number_ref<R: Reader>(goals: &R, p: &mut Parser<'_>) -> Result<(), Fault>
    requires { R.can_read goals.now }
    ensures { Runs (R.reads goals.now) form.number_ref p.old p.new result }
{
    let m = p.start();
    p.expect(INT_NUMBER)?;
    p.complete(&m, NAME_REF)
}

/// NAME_REF in a path: an identifier, `self`, `Self`, `super` or `crate`.
#[tactic(auto, unfolding(crate::specs::Paths::path_name))]
pub(crate) fn path_name<R: Reader>(goals: &R, p: &mut Parser<'_>) -> Result<(), Fault>
    requires { R.can_read goals.now }
    ensures { Runs (R.reads goals.now) form.path_name p.old p.new result }
{
    let m = p.start();
    p.expect_any(PathNames)?;
    p.complete(&m, NAME_REF)
}

/// LIFETIME: a token.
#[tactic(auto, unfolding(crate::specs::Paths::lifetime))]
pub fn lifetime<R: Reader>(goals: &R, p: &mut Parser<'_>) -> Result<(), Fault>
    requires { R.can_read goals.now }
    ensures { Runs (R.reads goals.now) form.lifetime p.old p.new result }
{
    let m = p.start();
    p.expect(LIFETIME_IDENT)?;
    p.complete(&m, LIFETIME)
}

/// TYPE_ARG: a type.
#[tactic(auto, unfolding(crate::specs::Paths::type_arg))]
pub fn type_arg<R: Reader>(goals: &R, p: &mut Parser<'_>) -> Result<(), Fault>
    requires { R.can_read goals.now }
    ensures { Runs (R.reads goals.now) form.type_arg p.old p.new result }
{
    let m = p.start();
    goals.read(p, Goal::Ty)?;
    p.complete(&m, TYPE_ARG)
}

/// PARENTHESIZED_ARG_LIST: types in parentheses, with commas between them.
#[tactic(auto, using(ssr_syntax_forms::proofs::Shared::run_comma_list_by), unfolding(crate::specs::Paths::parenthesized_arg_list))]
fn parenthesized_arg_list<R: Reader>(goals: &R, p: &mut Parser<'_>) -> Result<(), Fault>
    requires { R.can_read goals.now }
    ensures { Runs (R.reads goals.now) form.parenthesized_arg_list p.old p.new result }
{
    let m = p.start();
    p.expect(L_PAREN)?;
    p.comma_list(TypeFirst(goals.is_whole()), |p| type_arg(goals, p))?;
    p.expect(R_PAREN)?;
    p.complete(&m, PARENTHESIZED_ARG_LIST)
}

/// RET_TYPE: `->` and a type.
#[tactic(auto, unfolding(crate::specs::Paths::ret_type))]
pub fn ret_type<R: Reader>(goals: &R, p: &mut Parser<'_>) -> Result<(), Fault>
    requires { R.can_read goals.now }
    ensures { Runs (R.reads goals.now) form.ret_type p.old p.new result }
{
    let m = p.start();
    p.expect(THIN_ARROW)?;
    goals.read(p, Goal::Ty)?;
    p.complete(&m, RET_TYPE)
}

/// A PARENTHESIZED_ARG_LIST, and perhaps a RET_TYPE.
#[tactic(auto, unfolding(crate::specs::Paths::function_generics))]
fn function_generics<R: Reader>(goals: &R, p: &mut Parser<'_>) -> Result<(), Fault>
    requires { R.can_read goals.now }
    ensures { RunsAnywhere (R.reads goals.now) form.function_generics p.old p.new result }
{
    parenthesized_arg_list(goals, p)?;
    if p.at(THIN_ARROW) {
        ret_type(goals, p)
    } else {
        Ok(())
    }
}

/// A GENERIC_ARG_LIST, which begins with `::`, or nothing.
#[tactic(auto, using(ssr_syntax_forms::proofs::Shared::run_decide), unfolding(crate::specs::Paths::expr_generics))]
fn expr_generics<R: Reader>(goals: &R, p: &mut Parser<'_>) -> Result<(), Fault>
    requires { R.can_read goals.now }
    ensures { RunsAnywhere (R.reads goals.now) form.expr_generics p.old p.new result }
{
    if p.at_two(COLON2, OpenAngle) {
        goals.read(p, Goal::GenericArgs)
    } else {
        Ok(())
    }
}

/// A GENERIC_ARG_LIST, which begins with `::`, or that of a function's type, or nothing.
#[tactic(auto, using(ssr_syntax_forms::proofs::Shared::run_decide), unfolding(crate::specs::Paths::colon_generics))]
fn colon_generics<R: Reader>(goals: &R, p: &mut Parser<'_>) -> Result<(), Fault>
    requires { R.can_read goals.now }
    ensures { RunsAnywhere (R.reads goals.now) form.colon_generics p.old p.new result }
{
    if p.at_two(COLON2, OpenAngle) {
        goals.read(p, Goal::GenericArgs)
    } else if p.at(L_PAREN) {
        function_generics(goals, p)
    } else {
        Ok(())
    }
}

/// What generic arguments a type has, if any.
#[tactic(auto, using(ssr_syntax_forms::proofs::Shared::run_decide), unfolding(crate::specs::Paths::type_generics))]
fn type_generics<R: Reader>(goals: &R, p: &mut Parser<'_>) -> Result<(), Fault>
    requires { R.can_read goals.now }
    ensures { RunsAnywhere (R.reads goals.now) form.type_generics p.old p.new result }
{
    if p.at_any(GenericsFirst) {
        goals.read(p, Goal::GenericArgs)
    } else {
        colon_generics(goals, p)
    }
}

/// Generic arguments as a path has them there, or none.
#[tactic(auto, unfolding(crate::specs::Paths::generics))]
fn generics<R: Reader>(goals: &R, p: &mut Parser<'_>, place: PathPlace) -> Result<(), Fault>
    requires { R.can_read goals.now }
    ensures { RunsAnywhere (R.reads goals.now) (form.generics place) p.old p.new result }
{
    match place {
        PathPlace::InExpr => expr_generics(goals, p),
        PathPlace::InType => type_generics(goals, p),
        PathPlace::NamesAlone => Ok(()),
    }
}

/// PATH_SEGMENT: a NAME_REF and perhaps generic arguments.
#[tactic(auto, unfolding(crate::specs::Paths::path_segment))]
fn path_segment<R: Reader>(goals: &R, p: &mut Parser<'_>, place: PathPlace) -> Result<(), Fault>
    requires { R.can_read goals.now }
    ensures { Runs (R.reads goals.now) (form.path_segment place) p.old p.new result }
{
    let m = p.start();
    path_name(goals, p)?;
    generics(goals, p, place)?;
    p.complete(&m, PATH_SEGMENT)
}

/// PATH_SEGMENT with `::` in front or not.
#[tactic(auto, unfolding(crate::specs::Paths::first_segment))]
fn first_segment<R: Reader>(goals: &R, p: &mut Parser<'_>, place: PathPlace) -> Result<(), Fault>
    requires { R.can_read goals.now }
    ensures { Runs (R.reads goals.now) (form.first_segment place) p.old p.new result }
{
    let m = p.start();
    p.eat(COLON2)?;
    path_name(goals, p)?;
    generics(goals, p, place)?;
    p.complete(&m, PATH_SEGMENT)
}

/// The type of an anchor, and perhaps `as` and a trait.
#[tactic(auto, unfolding(crate::specs::Paths::anchored_type))]
fn anchored_type<R: Reader>(goals: &R, p: &mut Parser<'_>) -> Result<(), Fault>
    requires { R.can_read goals.now }
    ensures { RunsAnywhere (R.reads goals.now) form.anchored_type p.old p.new result }
{
    goals.read(p, Goal::Ty)?;
    if p.at(AS_KW) {
        p.expect(AS_KW)?;
        goals.read(p, Goal::PathType)
    } else {
        Ok(())
    }
}

/// PATH_SEGMENT: a type in angle brackets, perhaps with a trait of it.
#[tactic(auto, unfolding(crate::specs::Paths::type_anchor))]
fn type_anchor<R: Reader>(goals: &R, p: &mut Parser<'_>) -> Result<(), Fault>
    requires { R.can_read goals.now }
    ensures { Runs (R.reads goals.now) form.type_anchor p.old p.new result }
{
    let m = p.start();
    p.expect_part(OpenAngle)?;
    anchored_type(goals, p)?;
    p.expect_part(CloseAngle)?;
    p.complete(&m, PATH_SEGMENT)
}

/// PATH: `::` and a PATH_SEGMENT behind a PATH, which is all since the mark.
#[tactic(auto, unfolding(crate::specs::Paths::longer_path))]
fn longer_path<R: Reader>(
    goals: &R,
    p: &mut Parser<'_>,
    m: &Mark<'_>,
    place: PathPlace,
) -> Result<(), Fault>
    requires { R.can_read goals.now }
    ensures { RunsFrom (R.reads goals.now) (form.longer_path place) m.now p.old p.new result }
{
    p.expect(COLON2)?;
    path_segment(goals, p, place)?;
    p.complete(m, PATH)
}

/// PATH: an anchor and a PATH_SEGMENT behind it.
#[tactic(auto, unfolding(crate::specs::Paths::anchored_path))]
fn anchored_path<R: Reader>(
    goals: &R,
    p: &mut Parser<'_>,
    m: &Mark<'_>,
    place: PathPlace,
) -> Result<(), Fault>
    requires { R.can_read goals.now }
    ensures { RunsFrom (R.reads goals.now) (form.anchored_path place) m.now p.old p.new result }
{
    type_anchor(goals, p)?;
    p.complete(m, PATH)?;
    longer_path(goals, p, m, place)
}

/// PATH: one PATH_SEGMENT.
#[tactic(auto, unfolding(crate::specs::Paths::plain_path))]
fn plain_path<R: Reader>(
    goals: &R,
    p: &mut Parser<'_>,
    m: &Mark<'_>,
    place: PathPlace,
) -> Result<(), Fault>
    requires { R.can_read goals.now }
    ensures { RunsFrom (R.reads goals.now) (form.plain_path place) m.now p.old p.new result }
{
    first_segment(goals, p, place)?;
    p.complete(m, PATH)
}

/// What any longer PATH begins with.
#[tactic(auto, unfolding(crate::specs::Paths::shortest_path))]
fn shortest_path<R: Reader>(
    goals: &R,
    p: &mut Parser<'_>,
    m: &Mark<'_>,
    place: PathPlace,
) -> Result<(), Fault>
    requires { R.can_read goals.now }
    ensures { RunsFrom (R.reads goals.now) (form.shortest_path place) m.now p.old p.new result }
{
    if p.at_any(OpenAngle) {
        anchored_path(goals, p, m, place)
    } else {
        plain_path(goals, p, m, place)
    }
}

/// PATH: any number of PATH_SEGMENTs, but one at least.
#[tactic(auto, using(ssr_syntax_forms::proofs::Shared::run_as_long_as), unfolding(crate::specs::Paths::path))]
pub fn path<R: Reader>(goals: &R, p: &mut Parser<'_>, place: PathPlace) -> Result<(), Fault>
    requires { R.can_read goals.now }
    ensures { Runs (R.reads goals.now) (form.path place) p.old p.new result }
{
    let m = p.start();
    shortest_path(goals, p, &m, place)?;
    p.repeated(COLON2, |p| longer_path(goals, p, &m, place))
}

/// PATH of names alone.
#[tactic(auto, using(ssr_syntax_forms::proofs::Shared::run_as_long_as), unfolding(crate::specs::Paths::simple_path))]
pub fn simple_path<R: Reader>(goals: &R, p: &mut Parser<'_>) -> Result<(), Fault>
    requires { R.can_read goals.now }
    ensures { Runs (R.reads goals.now) form.simple_path p.old p.new result }
{
    let m = p.start();
    plain_path(goals, p, &m, PathPlace::NamesAlone)?;
    p.repeated_two(
        COLON2,
        PathNames,
        |p| longer_path(goals, p, &m, PathPlace::NamesAlone),
    )
}
