//! The functions that read items.
ghost use Rattle.std.specs.Prelude.{◌≡◌};
ghost use Rattle.ssr_syntax_items.specs.Items as form;
ghost use Rattle.ssr_syntax_forms.specs.Forms.{passes};
ghost use Rattle.ssr_syntax_forms.specs.Runs.{Runs, RunsAnywhere, RunsFrom};

use ssr_syntax_exprs::blocks::block_expr;
use ssr_syntax_forms::{Fault, Mark, Parser, TokenSet};
use ssr_syntax_item_parts::adts::{enum_item, record_field_list, struct_item};
use ssr_syntax_item_parts::params::{
    generic_param_list, generic_params, param_list, visibility, wheres,
};
use ssr_syntax_item_parts::uses::{MacroPathFirst, name_or_underscore, rename, use_item};
use ssr_syntax_kinds::SyntaxKind;
use ssr_syntax_kinds::SyntaxKind::*;
use ssr_syntax_types::goals::{ExprPlace, Goal, ItemPlace};
use ssr_syntax_types::paths::{OpenAngle, TypeFirst, name, ret_type, simple_path};
use ssr_syntax_types::reader::Reader;
use ssr_syntax_types::token_trees::{
    attrs, curly_tree, inner_attr, inner_attrs, paren_or_bracket_tree,
};
use ssr_syntax_types::types::{abi, type_bound_list};

/// What a TRAIT begins with.
#[derive(Clone, Copy)]
struct TraitFirst;

impl TokenSet for TraitFirst {
    ghost kinds = { λ _. form.trait_first };

    #[inline(always)]
    fn contains(self, kind: SyntaxKind) -> bool {
        matches!(kind, UNSAFE_KW | TRAIT_KW)
    }
}

/// What follows the `const` of a function.
#[derive(Clone, Copy)]
struct UnsafeOrFn;

impl TokenSet for UnsafeOrFn {
    ghost kinds = { λ _. form.unsafe_or_fn };

    #[inline(always)]
    fn contains(self, kind: SyntaxKind) -> bool {
        matches!(kind, UNSAFE_KW | FN_KW)
    }
}

/// What follows the `const` of a function of all of Rust.
#[derive(Clone, Copy)]
struct AsyncOrExtern;

impl TokenSet for AsyncOrExtern {
    ghost kinds = { λ _. form.async_or_extern };

    #[inline(always)]
    fn contains(self, kind: SyntaxKind) -> bool {
        matches!(kind, ASYNC_KW | EXTERN_KW)
    }
}

/// What follows the `async` of a function.
#[derive(Clone, Copy)]
struct BehindAsync;

impl TokenSet for BehindAsync {
    ghost kinds = { λ _. form.behind_async };

    #[inline(always)]
    fn contains(self, kind: SyntaxKind) -> bool {
        matches!(kind, UNSAFE_KW | EXTERN_KW | FN_KW)
    }
}

/// What an item of all of Rust begins with behind ATTRs of a statement.
#[derive(Clone, Copy)]
struct AttributedItemWords;

impl TokenSet for AttributedItemWords {
    ghost kinds = { λ _. form.attributed_item_words };

    #[inline(always)]
    fn contains(self, kind: SyntaxKind) -> bool {
        matches!(
            kind,
            PUB_KW
                | FN_KW
                | STRUCT_KW
                | ENUM_KW
                | TRAIT_KW
                | MOD_KW
                | USE_KW
                | STATIC_KW
                | TYPE_KW
                | IMPL_KW
                | EXTERN_KW
        )
    }
}

/// What follows the `const` of an item.
#[derive(Clone, Copy)]
struct ConstItemNext;

impl TokenSet for ConstItemNext {
    ghost kinds = { λ _. form.const_item_next };

    #[inline(always)]
    fn contains(self, kind: SyntaxKind) -> bool {
        matches!(
            kind,
            IDENT | UNDERSCORE | FN_KW | UNSAFE_KW | ASYNC_KW | EXTERN_KW
        )
    }
}

/// What follows the `unsafe` of an item.
#[derive(Clone, Copy)]
struct UnsafeItemNext;

impl TokenSet for UnsafeItemNext {
    ghost kinds = { λ _. form.unsafe_item_next };

    #[inline(always)]
    fn contains(self, kind: SyntaxKind) -> bool {
        matches!(kind, FN_KW | IMPL_KW | TRAIT_KW | EXTERN_KW)
    }
}

/// What an item goes on with behind `unsafe`.
#[derive(Clone, Copy)]
struct UnsafeItemWords;

impl TokenSet for UnsafeItemWords {
    ghost kinds = { λ _. form.unsafe_item_words };

    #[inline(always)]
    fn contains(self, kind: SyntaxKind) -> bool {
        matches!(kind, FN_KW | IMPL_KW | TRAIT_KW)
    }
}

/// What an item begins with that is no macro call, but for `unsafe`.
#[derive(Clone, Copy)]
struct NamedItemFirst;

impl TokenSet for NamedItemFirst {
    ghost kinds = { λ _. form.named_item_first };

    #[inline(always)]
    #[tactic(auto, unfolding(crate::specs::Items::named_item_first))]
    fn contains(self, kind: SyntaxKind) -> bool {
        matches!(
            kind,
            POUND
                | PUB_KW
                | CONST_KW
                | FN_KW
                | STRUCT_KW
                | ENUM_KW
                | TRAIT_KW
                | MOD_KW
                | USE_KW
                | STATIC_KW
                | TYPE_KW
                | IMPL_KW
        )
    }
}

/// What an item that is a statement begins with.
#[derive(Clone, Copy)]
pub(crate) struct StmtItemFirst;

impl TokenSet for StmtItemFirst {
    ghost kinds = { λ _. form.stmt_item_first };

    #[inline(always)]
    #[tactic(auto, unfolding(crate::specs::Items::stmt_item_first))]
    fn contains(self, kind: SyntaxKind) -> bool {
        matches!(kind, UNSAFE_KW) || NamedItemFirst.contains(kind)
    }
}

/// What else an item of all of Rust begins with.
#[derive(Clone, Copy)]
struct WholeItemWords;

impl TokenSet for WholeItemWords {
    ghost kinds = { λ _. form.whole_item_words };

    #[inline(always)]
    fn contains(self, kind: SyntaxKind) -> bool {
        matches!(kind, ASYNC_KW | EXTERN_KW)
    }
}

/// What an item begins with; with `true`, where all of Rust is read.
#[derive(Clone, Copy)]
struct ModuleItemFirst(bool);

impl TokenSet for ModuleItemFirst {
    ghost kinds = { λ s. form.module_item_first s.0 };

    #[inline(always)]
    #[tactic(auto, using(ssr_syntax_forms::proofs::Shared::mem_append, ssr_syntax_forms::proofs::Shared::mem_where_whole), unfolding(crate::specs::Items::module_item_first))]
    fn contains(self, kind: SyntaxKind) -> bool {
        StmtItemFirst.contains(kind)
            || MacroPathFirst.contains(kind)
            || self.0 && WholeItemWords.contains(kind)
    }
}

/// What an item of a TRAIT begins with that is no macro call.
#[derive(Clone, Copy)]
struct TraitItemWords;

impl TokenSet for TraitItemWords {
    ghost kinds = { λ _. form.trait_item_words };

    #[inline(always)]
    #[tactic(auto, unfolding(crate::specs::Items::trait_item_words))]
    fn contains(self, kind: SyntaxKind) -> bool {
        matches!(kind, POUND | CONST_KW | UNSAFE_KW | FN_KW | TYPE_KW)
    }
}

/// What an item of an IMPL begins with that is no macro call.
#[derive(Clone, Copy)]
struct ImplItemWords;

impl TokenSet for ImplItemWords {
    ghost kinds = { λ _. form.impl_item_words };

    #[inline(always)]
    #[tactic(auto, unfolding(crate::specs::Items::impl_item_words))]
    fn contains(self, kind: SyntaxKind) -> bool {
        matches!(kind, PUB_KW) || TraitItemWords.contains(kind)
    }
}

/// What an item of an IMPL begins with; with `true`, where all of Rust is read.
#[derive(Clone, Copy)]
struct ImplItemFirst(bool);

impl TokenSet for ImplItemFirst {
    ghost kinds = { λ s. form.impl_item_first s.0 };

    #[inline(always)]
    #[tactic(auto, using(ssr_syntax_forms::proofs::Shared::mem_append, ssr_syntax_forms::proofs::Shared::mem_where_whole), unfolding(crate::specs::Items::impl_item_first))]
    fn contains(self, kind: SyntaxKind) -> bool {
        MacroPathFirst.contains(kind)
            || ImplItemWords.contains(kind)
            || self.0 && WholeItemWords.contains(kind)
    }
}

/// What an item of a TRAIT begins with; with `true`, where all of Rust is read.
#[derive(Clone, Copy)]
struct TraitItemFirst(bool);

impl TokenSet for TraitItemFirst {
    ghost kinds = { λ s. form.trait_item_first s.0 };

    #[inline(always)]
    #[tactic(auto, using(ssr_syntax_forms::proofs::Shared::mem_append, ssr_syntax_forms::proofs::Shared::mem_where_whole), unfolding(crate::specs::Items::trait_item_first))]
    fn contains(self, kind: SyntaxKind) -> bool {
        MacroPathFirst.contains(kind)
            || TraitItemWords.contains(kind)
            || self.0 && WholeItemWords.contains(kind)
    }
}

/// What an item of an EXTERN_BLOCK begins with that is no macro call.
#[derive(Clone, Copy)]
struct ExternItemWords;

impl TokenSet for ExternItemWords {
    ghost kinds = { λ _. form.extern_item_words };

    #[inline(always)]
    #[tactic(auto, unfolding(crate::specs::Items::extern_item_words))]
    fn contains(self, kind: SyntaxKind) -> bool {
        matches!(
            kind,
            POUND | PUB_KW | UNSAFE_KW | FN_KW | STATIC_KW | TYPE_KW
        )
    }
}

/// What an item of an EXTERN_BLOCK begins with.
#[derive(Clone, Copy)]
struct ExternItemFirst;

impl TokenSet for ExternItemFirst {
    ghost kinds = { λ _. form.extern_item_first };

    #[inline(always)]
    #[tactic(auto, using(ssr_syntax_forms::proofs::Shared::mem_append), unfolding(crate::specs::Items::extern_item_first))]
    fn contains(self, kind: SyntaxKind) -> bool {
        MacroPathFirst.contains(kind) || ExternItemWords.contains(kind)
    }
}

/// What follows `safe`.
#[derive(Clone, Copy)]
struct FnOrStatic;

impl TokenSet for FnOrStatic {
    ghost kinds = { λ _. form.fn_or_static };

    #[inline(always)]
    fn contains(self, kind: SyntaxKind) -> bool {
        matches!(kind, FN_KW | STATIC_KW)
    }
}

/// What the name of a crate begins with.
#[derive(Clone, Copy)]
struct CrateNames;

impl TokenSet for CrateNames {
    ghost kinds = { λ _. form.crate_names };

    #[inline(always)]
    fn contains(self, kind: SyntaxKind) -> bool {
        matches!(kind, IDENT | SELF_KW)
    }
}

/// Whether FN of the stated language is next, behind its VISIBILITY.
#[tactic(auto, using(ssr_syntax_forms::proofs::Shared::first_passes, ssr_syntax_forms::proofs::Shared::others_pass))]
fn at_fn(p: &Parser<'_>) -> bool
    ensures { result ≡ passes form.fn_ahead p.now.rest }
{
    p.at(FN_KW) || p.at_two(CONST_KW, UnsafeOrFn) || p.at_two(UNSAFE_KW, FN_KW)
}

/// Whether IMPL is next.
#[tactic(auto, using(ssr_syntax_forms::proofs::Shared::first_passes, ssr_syntax_forms::proofs::Shared::others_pass))]
fn at_impl(p: &Parser<'_>) -> bool
    ensures { result ≡ passes form.impl_ahead p.now.rest }
{
    p.at(IMPL_KW) || p.at_two(UNSAFE_KW, IMPL_KW)
}

/// Whether MACRO_RULES is next.
fn at_macro_rules(p: &Parser<'_>) -> bool
    ensures { result ≡ passes form.macro_rules_ahead p.now.rest }
{
    p.at_three(IDENT, BANG, IDENT)
}

/// Whether an item is next that is a statement.
#[tactic(auto, using(ssr_syntax_forms::proofs::Shared::first_passes, ssr_syntax_forms::proofs::Shared::others_pass))]
pub(crate) fn at_stmt_item(p: &Parser<'_>) -> bool
    ensures { result ≡ passes form.stmt_item_ahead p.now.rest }
{
    p.at_any(NamedItemFirst) || p.at_two(UNSAFE_KW, UnsafeItemWords) || at_macro_rules(p)
}

/// Whether FN that only all of Rust has is next, behind its VISIBILITY.
#[tactic(auto, using(ssr_syntax_forms::proofs::Shared::first_passes, ssr_syntax_forms::proofs::Shared::others_pass))]
fn at_whole_fn(p: &Parser<'_>) -> bool
    ensures { result ≡ passes form.whole_fn_ahead p.now.rest }
{
    p.at(ASYNC_KW)
        || p.at_two(CONST_KW, AsyncOrExtern)
        || p.at_two(EXTERN_KW, FN_KW)
        || p.at_three(EXTERN_KW, STRING, FN_KW)
        || p.at_three(UNSAFE_KW, EXTERN_KW, FN_KW)
        || p.at_four(UNSAFE_KW, EXTERN_KW, STRING, FN_KW)
}

/// Whether an item that only all of Rust has is next, where statements stand.
#[tactic(auto, using(ssr_syntax_forms::proofs::Shared::first_passes, ssr_syntax_forms::proofs::Shared::others_pass))]
pub(crate) fn at_whole_item(p: &Parser<'_>) -> bool
    ensures { result ≡ passes form.whole_item_ahead p.now.rest }
{
    p.at_two(ASYNC_KW, BehindAsync)
        || p.at(EXTERN_KW)
        || p.at_two(UNSAFE_KW, EXTERN_KW)
        || at_union(p)
}

/// Whether an item is next behind ATTRs of a statement, where all of Rust is read.
#[tactic(auto, using(ssr_syntax_forms::proofs::Shared::first_passes, ssr_syntax_forms::proofs::Shared::others_pass))]
pub(crate) fn at_attributed_item(p: &Parser<'_>) -> bool
    ensures { result ≡ passes form.attributed_item_ahead p.now.rest }
{
    p.at_any(AttributedItemWords)
        || p.at_two(CONST_KW, ConstItemNext)
        || p.at_two(ASYNC_KW, BehindAsync)
        || p.at_two(UNSAFE_KW, UnsafeItemNext)
        || at_union(p)
        || at_macro_rules(p)
}

/// Whether two identifiers are next, as at the beginning of UNION.
fn at_union(p: &Parser<'_>) -> bool
    ensures { result ≡ passes form.union_ahead p.now.rest }
{
    p.at_two(IDENT, IDENT)
}

/// Whether EXTERN_CRATE is next, behind its VISIBILITY.
fn at_extern_crate(p: &Parser<'_>) -> bool
    ensures { result ≡ passes form.extern_crate_ahead p.now.rest }
{
    p.at_two(EXTERN_KW, CRATE_KW)
}

/// Whether EXTERN_BLOCK is next, where no function is.
#[tactic(auto, using(ssr_syntax_forms::proofs::Shared::first_passes, ssr_syntax_forms::proofs::Shared::others_pass))]
fn at_extern_block(p: &Parser<'_>) -> bool
    ensures { result ≡ passes form.extern_block_ahead p.now.rest }
{
    p.at(EXTERN_KW) || p.at_two(UNSAFE_KW, EXTERN_KW)
}

/// Whether an identifier and `fn` or `static` are next, as behind the VISIBILITY of what is `safe`.
fn at_safe(p: &Parser<'_>) -> bool
    ensures { result ≡ passes form.safe_ahead p.now.rest }
{
    p.at_two(IDENT, FnOrStatic)
}

/// Whether FN is next in an EXTERN_BLOCK, behind its VISIBILITY.
#[tactic(auto, using(ssr_syntax_forms::proofs::Shared::first_passes, ssr_syntax_forms::proofs::Shared::others_pass))]
fn at_foreign_fn(p: &Parser<'_>) -> bool
    ensures { result ≡ passes form.foreign_fn_ahead p.now.rest }
{
    p.at(FN_KW) || p.at_two(UNSAFE_KW, FN_KW)
}

/// A BLOCK_EXPR or `;`.
#[tactic(auto, unfolding(crate::specs::Items::block_or_none))]
fn block_or_none<R: Reader>(goals: &R, p: &mut Parser<'_>) -> Result<(), Fault>
    requires { R.can_read goals.now }
    ensures { RunsAnywhere (R.reads goals.now) form.block_or_none p.old p.new result }
{
    if p.at(SEMICOLON) {
        p.expect(SEMICOLON)
    } else {
        block_expr(goals, p)
    }
}

/// The body of a function, which may lack in a TRAIT, and in an EXTERN_BLOCK.
#[tactic(auto, unfolding(crate::specs::Items::fn_body))]
fn fn_body<R: Reader>(goals: &R, p: &mut Parser<'_>, place: ItemPlace) -> Result<(), Fault>
    requires { R.can_read goals.now }
    ensures { RunsAnywhere (R.reads goals.now) (form.fn_body place) p.old p.new result }
{
    match place {
        ItemPlace::InTrait => block_or_none(goals, p),
        ItemPlace::InExtern => block_or_none(goals, p),
        ItemPlace::InModule => block_expr(goals, p),
        ItemPlace::AsStmt => block_expr(goals, p),
        ItemPlace::InImpl => block_expr(goals, p),
    }
}

/// `async` in front of a function, where all of Rust is read, or nothing.
#[tactic(auto, using(ssr_syntax_forms::proofs::Shared::run_also), unfolding(crate::specs::Items::async_word))]
fn async_word<R: Reader>(goals: &R, p: &mut Parser<'_>, m: &Mark<'_>) -> Result<(), Fault>
    requires { R.can_read goals.now }
    ensures { RunsFrom (R.reads goals.now) form.async_word m.now p.old p.new result }
{
    if p.at(ASYNC_KW) && goals.is_whole() {
        p.expect(ASYNC_KW)
    } else {
        Ok(())
    }
}

/// ABI of a function, where all of Rust is read, or nothing.
#[tactic(auto, using(ssr_syntax_forms::proofs::Shared::run_also), unfolding(crate::specs::Items::abi_or_none))]
fn abi_or_none<R: Reader>(goals: &R, p: &mut Parser<'_>, m: &Mark<'_>) -> Result<(), Fault>
    requires { R.can_read goals.now }
    ensures { RunsFrom (R.reads goals.now) form.abi_or_none m.now p.old p.new result }
{
    if p.at(EXTERN_KW) && goals.is_whole() {
        abi(goals, p)
    } else {
        Ok(())
    }
}

/// The words in front of a function's name: perhaps `const`, `async`, `unsafe` and an ABI, and `fn`.
#[tactic(auto, unfolding(crate::specs::Items::fn_words))]
fn fn_words<R: Reader>(goals: &R, p: &mut Parser<'_>, m: &Mark<'_>) -> Result<(), Fault>
    requires { R.can_read goals.now }
    ensures { RunsFrom (R.reads goals.now) form.fn_words m.now p.old p.new result }
{
    p.eat(CONST_KW)?;
    async_word(goals, p, m)?;
    p.eat(UNSAFE_KW)?;
    abi_or_none(goals, p, m)?;
    p.expect(FN_KW)
}

/// FN: its words, a NAME, parameters, perhaps a RET_TYPE and a WHERE_CLAUSE, and a body.
#[tactic(auto, unfolding(crate::specs::Items::function))]
fn function<R: Reader>(
    goals: &R,
    p: &mut Parser<'_>,
    m: &Mark<'_>,
    place: ItemPlace,
) -> Result<(), Fault>
    requires { R.can_read goals.now }
    ensures { RunsFrom (R.reads goals.now) (form.function place) m.now p.old p.new result }
{
    fn_words(goals, p, m)?;
    name(goals, p)?;
    generic_params(goals, p, m)?;
    param_list(goals, p)?;
    if p.at(THIN_ARROW) {
        ret_type(goals, p)?;
    }
    wheres(goals, p, m)?;
    fn_body(goals, p, place)?;
    p.complete(m, FN)
}

/// ASSOC_ITEM_LIST of an IMPL: items in braces.
#[tactic(auto, using(ssr_syntax_forms::proofs::Shared::run_repeated_by), unfolding(crate::specs::Items::impl_item_list))]
fn impl_item_list<R: Reader>(goals: &R, p: &mut Parser<'_>) -> Result<(), Fault>
    requires { R.can_read goals.now }
    ensures { Runs (R.reads goals.now) form.impl_item_list p.old p.new result }
{
    let m = p.start();
    p.expect(L_CURLY)?;
    inner_attrs(goals, p)?;
    p.repeated(
        ImplItemFirst(goals.is_whole()),
        |p| goals.read(p, Goal::Item(ItemPlace::InImpl)),
    )?;
    p.expect(R_CURLY)?;
    p.complete(&m, ASSOC_ITEM_LIST)
}

/// ASSOC_ITEM_LIST of a TRAIT: items in braces.
#[tactic(auto, using(ssr_syntax_forms::proofs::Shared::run_repeated_by), unfolding(crate::specs::Items::trait_item_list))]
fn trait_item_list<R: Reader>(goals: &R, p: &mut Parser<'_>) -> Result<(), Fault>
    requires { R.can_read goals.now }
    ensures { Runs (R.reads goals.now) form.trait_item_list p.old p.new result }
{
    let m = p.start();
    p.expect(L_CURLY)?;
    inner_attrs(goals, p)?;
    p.repeated(
        TraitItemFirst(goals.is_whole()),
        |p| goals.read(p, Goal::Item(ItemPlace::InTrait)),
    )?;
    p.expect(R_CURLY)?;
    p.complete(&m, ASSOC_ITEM_LIST)
}

/// `!`, the type of a trait, `for` and a type.
#[tactic(auto, unfolding(crate::specs::Items::negative_impl))]
fn negative_impl<R: Reader>(goals: &R, p: &mut Parser<'_>) -> Result<(), Fault>
    requires { R.can_read goals.now }
    ensures { RunsAnywhere (R.reads goals.now) form.negative_impl p.old p.new result }
{
    p.expect(BANG)?;
    goals.read(p, Goal::Ty)?;
    p.expect(FOR_KW)?;
    goals.read(p, Goal::Ty)
}

/// A type, and perhaps `for` and another.
#[tactic(auto, unfolding(crate::specs::Items::positive_impl))]
fn positive_impl<R: Reader>(goals: &R, p: &mut Parser<'_>) -> Result<(), Fault>
    requires { R.can_read goals.now }
    ensures { RunsAnywhere (R.reads goals.now) form.positive_impl p.old p.new result }
{
    goals.read(p, Goal::Ty)?;
    if p.at(FOR_KW) {
        p.expect(FOR_KW)?;
        goals.read(p, Goal::Ty)
    } else {
        Ok(())
    }
}

/// What an IMPL is of.
#[tactic(auto, using(ssr_syntax_forms::proofs::Shared::run_decide), unfolding(crate::specs::Items::impl_types))]
fn impl_types<R: Reader>(goals: &R, p: &mut Parser<'_>, m: &Mark<'_>) -> Result<(), Fault>
    requires { R.can_read goals.now }
    ensures { RunsFrom (R.reads goals.now) form.impl_types m.now p.old p.new result }
{
    if p.at_two(BANG, TypeFirst(false)) {
        negative_impl(goals, p)
    } else {
        positive_impl(goals, p)
    }
}

/// The GENERIC_PARAM_LIST of an IMPL, or nothing.
#[tactic(auto, using(ssr_syntax_forms::proofs::Shared::run_decide), unfolding(crate::specs::Items::impl_params))]
fn impl_params<R: Reader>(goals: &R, p: &mut Parser<'_>, m: &Mark<'_>) -> Result<(), Fault>
    requires { R.can_read goals.now }
    ensures { RunsFrom (R.reads goals.now) form.impl_params m.now p.old p.new result }
{
    if p.at_any(OpenAngle) {
        generic_param_list(goals, p)
    } else {
        Ok(())
    }
}

/// IMPL: perhaps `unsafe`, `impl`, parameters, perhaps a trait and `for`, a type, perhaps a WHERE_CLAUSE, and items.
#[tactic(auto, unfolding(crate::specs::Items::impl_item))]
fn impl_item<R: Reader>(goals: &R, p: &mut Parser<'_>, m: &Mark<'_>) -> Result<(), Fault>
    requires { R.can_read goals.now }
    ensures { RunsFrom (R.reads goals.now) form.impl_item m.now p.old p.new result }
{
    p.eat(UNSAFE_KW)?;
    p.expect(IMPL_KW)?;
    impl_params(goals, p, m)?;
    impl_types(goals, p, m)?;
    wheres(goals, p, m)?;
    impl_item_list(goals, p)?;
    p.complete(m, IMPL)
}

/// What follows the parameters of a TRAIT: perhaps bounds and a WHERE_CLAUSE, and items.
#[tactic(auto, unfolding(crate::specs::Items::trait_rest))]
fn trait_rest<R: Reader>(goals: &R, p: &mut Parser<'_>, m: &Mark<'_>) -> Result<(), Fault>
    requires { R.can_read goals.now }
    ensures { RunsFrom (R.reads goals.now) form.trait_rest m.now p.old p.new result }
{
    if p.at(COLON) {
        p.expect(COLON)?;
        type_bound_list(goals, p)?;
    }
    wheres(goals, p, m)?;
    trait_item_list(goals, p)?;
    p.complete(m, TRAIT)
}

/// TRAIT: perhaps `unsafe`, `trait`, a NAME, parameters, perhaps bounds and a WHERE_CLAUSE, and items.
#[tactic(auto, unfolding(crate::specs::Items::trait_item))]
fn trait_item<R: Reader>(goals: &R, p: &mut Parser<'_>, m: &Mark<'_>) -> Result<(), Fault>
    requires { R.can_read goals.now }
    ensures { RunsFrom (R.reads goals.now) form.trait_item m.now p.old p.new result }
{
    p.eat(UNSAFE_KW)?;
    p.expect(TRAIT_KW)?;
    name(goals, p)?;
    generic_params(goals, p, m)?;
    trait_rest(goals, p, m)
}

/// `=`, a type, and in all of Rust perhaps a WHERE_CLAUSE.
#[tactic(auto, unfolding(crate::specs::Items::aliased_type))]
fn aliased_type<R: Reader>(goals: &R, p: &mut Parser<'_>, m: &Mark<'_>) -> Result<(), Fault>
    requires { R.can_read goals.now }
    ensures { RunsFrom (R.reads goals.now) form.aliased_type m.now p.old p.new result }
{
    p.expect(EQ)?;
    goals.read(p, Goal::Ty)?;
    if goals.is_whole() {
        wheres(goals, p, m)
    } else {
        Ok(())
    }
}

/// TYPE_ALIAS: `type`, a NAME, parameters, perhaps bounds, a WHERE_CLAUSE, `=` and a type, and `;`.
#[tactic(auto, unfolding(crate::specs::Items::type_alias))]
fn type_alias<R: Reader>(goals: &R, p: &mut Parser<'_>, m: &Mark<'_>) -> Result<(), Fault>
    requires { R.can_read goals.now }
    ensures { RunsFrom (R.reads goals.now) form.type_alias m.now p.old p.new result }
{
    p.expect(TYPE_KW)?;
    name(goals, p)?;
    generic_params(goals, p, m)?;
    if p.at(COLON) {
        p.expect(COLON)?;
        type_bound_list(goals, p)?;
    }
    wheres(goals, p, m)?;
    if p.at(EQ) {
        aliased_type(goals, p, m)?;
    }
    p.expect(SEMICOLON)?;
    p.complete(m, TYPE_ALIAS)
}

/// CONST: `const`, a NAME or `_`, `:`, a type, perhaps `=` and an expression, and `;`.
#[tactic(auto, unfolding(crate::specs::Items::const_item))]
fn const_item<R: Reader>(goals: &R, p: &mut Parser<'_>, m: &Mark<'_>) -> Result<(), Fault>
    requires { R.can_read goals.now }
    ensures { RunsFrom (R.reads goals.now) form.const_item m.now p.old p.new result }
{
    p.expect(CONST_KW)?;
    name_or_underscore(goals, p)?;
    p.expect(COLON)?;
    goals.read(p, Goal::Ty)?;
    if p.at(EQ) {
        p.expect(EQ)?;
        goals.read(p, Goal::Expr(ExprPlace::Anywhere))?;
    }
    p.expect(SEMICOLON)?;
    p.complete(m, CONST)
}

/// STATIC: `static`, perhaps `mut`, a NAME, `:`, a type, `=`, an expression and `;`.
#[tactic(auto, unfolding(crate::specs::Items::static_item))]
fn static_item<R: Reader>(goals: &R, p: &mut Parser<'_>, m: &Mark<'_>) -> Result<(), Fault>
    requires { R.can_read goals.now }
    ensures { RunsFrom (R.reads goals.now) form.static_item m.now p.old p.new result }
{
    p.expect(STATIC_KW)?;
    p.eat(MUT_KW)?;
    name(goals, p)?;
    p.expect(COLON)?;
    goals.read(p, Goal::Ty)?;
    p.expect(EQ)?;
    goals.read(p, Goal::Expr(ExprPlace::Anywhere))?;
    p.expect(SEMICOLON)?;
    p.complete(m, STATIC)
}

/// ITEM_LIST: items in braces.
#[tactic(auto, using(ssr_syntax_forms::proofs::Shared::run_repeated_by), unfolding(crate::specs::Items::item_list))]
fn item_list<R: Reader>(goals: &R, p: &mut Parser<'_>) -> Result<(), Fault>
    requires { R.can_read goals.now }
    ensures { Runs (R.reads goals.now) form.item_list p.old p.new result }
{
    let m = p.start();
    p.expect(L_CURLY)?;
    inner_attrs(goals, p)?;
    p.repeated(
        ModuleItemFirst(goals.is_whole()),
        |p| goals.read(p, Goal::Item(ItemPlace::InModule)),
    )?;
    p.expect(R_CURLY)?;
    p.complete(&m, ITEM_LIST)
}

/// An ITEM_LIST or `;`.
#[tactic(auto, unfolding(crate::specs::Items::items_or_none))]
fn items_or_none<R: Reader>(goals: &R, p: &mut Parser<'_>) -> Result<(), Fault>
    requires { R.can_read goals.now }
    ensures { RunsAnywhere (R.reads goals.now) form.items_or_none p.old p.new result }
{
    if p.at(SEMICOLON) {
        p.expect(SEMICOLON)
    } else {
        item_list(goals, p)
    }
}

/// MODULE: `mod`, a NAME, and items or `;`.
#[tactic(auto, unfolding(crate::specs::Items::mod_item))]
fn mod_item<R: Reader>(goals: &R, p: &mut Parser<'_>, m: &Mark<'_>) -> Result<(), Fault>
    requires { R.can_read goals.now }
    ensures { RunsFrom (R.reads goals.now) form.mod_item m.now p.old p.new result }
{
    p.expect(MOD_KW)?;
    name(goals, p)?;
    items_or_none(goals, p)?;
    p.complete(m, MODULE)
}

/// A TOKEN_TREE in braces, and perhaps `;`.
#[tactic(auto, using(ssr_syntax_forms::proofs::Shared::run_settle), unfolding(crate::specs::Items::curly_macro_end))]
fn curly_macro_end<R: Reader>(goals: &R, p: &mut Parser<'_>) -> Result<(), Fault>
    requires { R.can_read goals.now }
    ensures { RunsAnywhere (R.reads goals.now) form.curly_macro_end p.old p.new result }
{
    curly_tree(goals, p)?;
    if p.at(SEMICOLON) {
        p.expect(SEMICOLON)
    } else {
        Ok(())
    }
}

/// A TOKEN_TREE in other brackets, and `;`.
#[tactic(auto, unfolding(crate::specs::Items::other_macro_end))]
fn other_macro_end<R: Reader>(goals: &R, p: &mut Parser<'_>) -> Result<(), Fault>
    requires { R.can_read goals.now }
    ensures { RunsAnywhere (R.reads goals.now) form.other_macro_end p.old p.new result }
{
    paren_or_bracket_tree(goals, p)?;
    p.expect(SEMICOLON)
}

/// The TOKEN_TREE of a MACRO_CALL or of MACRO_RULES, and its `;`.
#[tactic(auto, unfolding(crate::specs::Items::macro_end))]
fn macro_end<R: Reader>(goals: &R, p: &mut Parser<'_>) -> Result<(), Fault>
    requires { R.can_read goals.now }
    ensures { RunsAnywhere (R.reads goals.now) form.macro_end p.old p.new result }
{
    if p.at(L_CURLY) {
        curly_macro_end(goals, p)
    } else {
        other_macro_end(goals, p)
    }
}

/// MACRO_CALL: a PATH, `!`, a TOKEN_TREE, and `;`, which may lack behind braces.
#[tactic(auto, unfolding(crate::specs::Items::macro_item))]
fn macro_item<R: Reader>(goals: &R, p: &mut Parser<'_>, m: &Mark<'_>) -> Result<(), Fault>
    requires { R.can_read goals.now }
    ensures { RunsFrom (R.reads goals.now) form.macro_item m.now p.old p.new result }
{
    simple_path(goals, p)?;
    p.expect(BANG)?;
    macro_end(goals, p)?;
    p.complete(m, MACRO_CALL)
}

/// What follows `macro_rules` and `!`: a NAME, a TOKEN_TREE, and `;`, which may lack behind braces.
#[tactic(auto, unfolding(crate::specs::Items::macro_rules_rest))]
fn macro_rules_rest<R: Reader>(goals: &R, p: &mut Parser<'_>) -> Result<(), Fault>
    requires { R.can_read goals.now }
    ensures { RunsAnywhere (R.reads goals.now) form.macro_rules_rest p.old p.new result }
{
    name(goals, p)?;
    macro_end(goals, p)
}

/// MACRO_RULES: the identifier `macro_rules`, `!`, and the rest. Any identifier is taken in front, and asked for its text
/// when the tree is made.
#[tactic(auto, unfolding(crate::specs::Items::macro_rules))]
fn macro_rules<R: Reader>(goals: &R, p: &mut Parser<'_>, m: &Mark<'_>) -> Result<(), Fault>
    requires { R.can_read goals.now }
    ensures { RunsFrom (R.reads goals.now) form.macro_rules m.now p.old p.new result }
{
    p.expect(IDENT)?;
    p.expect(BANG)?;
    macro_rules_rest(goals, p)?;
    p.complete(m, MACRO_RULES)
}

/// NAME_REF of a crate: an identifier or `self`.
#[tactic(auto, unfolding(crate::specs::Items::crate_name))]
fn crate_name<R: Reader>(goals: &R, p: &mut Parser<'_>) -> Result<(), Fault>
    requires { R.can_read goals.now }
    ensures { Runs (R.reads goals.now) form.crate_name p.old p.new result }
{
    let m = p.start();
    p.expect_any(CrateNames)?;
    p.complete(&m, NAME_REF)
}

/// EXTERN_CRATE: `extern`, `crate`, a NAME_REF, perhaps a RENAME, and `;`.
#[tactic(auto, unfolding(crate::specs::Items::extern_crate))]
fn extern_crate<R: Reader>(goals: &R, p: &mut Parser<'_>, m: &Mark<'_>) -> Result<(), Fault>
    requires { R.can_read goals.now }
    ensures { RunsFrom (R.reads goals.now) form.extern_crate m.now p.old p.new result }
{
    p.expect(EXTERN_KW)?;
    p.expect(CRATE_KW)?;
    crate_name(goals, p)?;
    if p.at(AS_KW) {
        rename(goals, p)?;
    }
    p.expect(SEMICOLON)?;
    p.complete(m, EXTERN_CRATE)
}

/// EXTERN_ITEM_LIST: items in braces.
#[tactic(auto, unfolding(crate::specs::Items::extern_item_list))]
fn extern_item_list<R: Reader>(goals: &R, p: &mut Parser<'_>) -> Result<(), Fault>
    requires { R.can_read goals.now }
    ensures { Runs (R.reads goals.now) form.extern_item_list p.old p.new result }
{
    let m = p.start();
    p.expect(L_CURLY)?;
    inner_attrs(goals, p)?;
    p.repeated(
        ExternItemFirst,
        |p| goals.read(p, Goal::Item(ItemPlace::InExtern)),
    )?;
    p.expect(R_CURLY)?;
    p.complete(&m, EXTERN_ITEM_LIST)
}

/// EXTERN_BLOCK: perhaps `unsafe`, an ABI, and items.
#[tactic(auto, unfolding(crate::specs::Items::extern_block))]
fn extern_block<R: Reader>(goals: &R, p: &mut Parser<'_>, m: &Mark<'_>) -> Result<(), Fault>
    requires { R.can_read goals.now }
    ensures { RunsFrom (R.reads goals.now) form.extern_block m.now p.old p.new result }
{
    p.eat(UNSAFE_KW)?;
    abi(goals, p)?;
    extern_item_list(goals, p)?;
    p.complete(m, EXTERN_BLOCK)
}

/// STATIC of an EXTERN_BLOCK: perhaps `unsafe`, `static`, perhaps `mut`, a NAME, `:`, a type and `;`.
#[tactic(auto, unfolding(crate::specs::Items::foreign_static))]
fn foreign_static<R: Reader>(goals: &R, p: &mut Parser<'_>, m: &Mark<'_>) -> Result<(), Fault>
    requires { R.can_read goals.now }
    ensures { RunsFrom (R.reads goals.now) form.foreign_static m.now p.old p.new result }
{
    p.eat(UNSAFE_KW)?;
    p.expect(STATIC_KW)?;
    p.eat(MUT_KW)?;
    name(goals, p)?;
    p.expect(COLON)?;
    goals.read(p, Goal::Ty)?;
    p.expect(SEMICOLON)?;
    p.complete(m, STATIC)
}

/// TYPE_ALIAS or STATIC of an EXTERN_BLOCK.
#[tactic(auto, unfolding(crate::specs::Items::foreign_type_or_value))]
fn foreign_type_or_value<R: Reader>(
    goals: &R,
    p: &mut Parser<'_>,
    m: &Mark<'_>,
) -> Result<(), Fault>
    requires { R.can_read goals.now }
    ensures { RunsFrom (R.reads goals.now) form.foreign_type_or_value m.now p.old p.new result }
{
    if p.at(TYPE_KW) {
        type_alias(goals, p, m)
    } else {
        foreign_static(goals, p, m)
    }
}

/// FN, TYPE_ALIAS or STATIC of an EXTERN_BLOCK, behind its VISIBILITY.
#[tactic(auto, using(ssr_syntax_forms::proofs::Shared::run_decide), unfolding(crate::specs::Items::bare_foreign_item))]
fn bare_foreign_item<R: Reader>(goals: &R, p: &mut Parser<'_>, m: &Mark<'_>) -> Result<(), Fault>
    requires { R.can_read goals.now }
    ensures { RunsFrom (R.reads goals.now) form.bare_foreign_item m.now p.old p.new result }
{
    if at_foreign_fn(p) {
        function(goals, p, m, ItemPlace::InExtern)
    } else {
        foreign_type_or_value(goals, p, m)
    }
}

/// SAFE_KW: the identifier `safe`.
#[tactic(auto, unfolding(crate::specs::Items::safe_word))]
fn safe_word<R: Reader>(goals: &R, p: &mut Parser<'_>) -> Result<(), Fault>
    requires { R.can_read goals.now }
    ensures { Runs (R.reads goals.now) form.safe_word p.old p.new result }
{
    let m = p.start();
    p.expect(IDENT)?;
    p.complete(&m, SAFE_KW)
}

/// FN or STATIC of an EXTERN_BLOCK, with `safe`.
#[tactic(auto, unfolding(crate::specs::Items::safe_foreign_item))]
fn safe_foreign_item<R: Reader>(goals: &R, p: &mut Parser<'_>, m: &Mark<'_>) -> Result<(), Fault>
    requires { R.can_read goals.now }
    ensures { RunsFrom (R.reads goals.now) form.safe_foreign_item m.now p.old p.new result }
{
    safe_word(goals, p)?;
    bare_foreign_item(goals, p, m)
}

/// FN, TYPE_ALIAS or STATIC of an EXTERN_BLOCK, behind its VISIBILITY, perhaps with `safe`.
#[tactic(auto, using(ssr_syntax_forms::proofs::Shared::run_decide), unfolding(crate::specs::Items::safe_or_bare_item))]
fn safe_or_bare_item<R: Reader>(goals: &R, p: &mut Parser<'_>, m: &Mark<'_>) -> Result<(), Fault>
    requires { R.can_read goals.now }
    ensures { RunsFrom (R.reads goals.now) form.safe_or_bare_item m.now p.old p.new result }
{
    if at_safe(p) {
        safe_foreign_item(goals, p, m)
    } else {
        bare_foreign_item(goals, p, m)
    }
}

/// The same, perhaps with a VISIBILITY in front.
#[tactic(auto, unfolding(crate::specs::Items::foreign_item))]
fn foreign_item<R: Reader>(goals: &R, p: &mut Parser<'_>, m: &Mark<'_>) -> Result<(), Fault>
    requires { R.can_read goals.now }
    ensures { RunsFrom (R.reads goals.now) form.foreign_item m.now p.old p.new result }
{
    if p.at(PUB_KW) {
        visibility(goals, p)?;
    }
    safe_or_bare_item(goals, p, m)
}

/// An item of an EXTERN_BLOCK, behind its ATTRs, that doesn't begin with `safe`.
#[tactic(auto, using(ssr_syntax_forms::proofs::Shared::run_decide), unfolding(crate::specs::Items::macro_or_foreign_item))]
fn macro_or_foreign_item<R: Reader>(
    goals: &R,
    p: &mut Parser<'_>,
    m: &Mark<'_>,
) -> Result<(), Fault>
    requires { R.can_read goals.now }
    ensures { RunsFrom (R.reads goals.now) form.macro_or_foreign_item m.now p.old p.new result }
{
    if p.at_any(MacroPathFirst) {
        macro_item(goals, p, m)
    } else {
        foreign_item(goals, p, m)
    }
}

/// An item of an EXTERN_BLOCK, behind its ATTRs.
#[tactic(auto, using(ssr_syntax_forms::proofs::Shared::run_decide), unfolding(crate::specs::Items::item_in_extern))]
fn item_in_extern<R: Reader>(goals: &R, p: &mut Parser<'_>, m: &Mark<'_>) -> Result<(), Fault>
    requires { R.can_read goals.now }
    ensures { RunsFrom (R.reads goals.now) form.item_in_extern m.now p.old p.new result }
{
    if at_safe(p) {
        safe_foreign_item(goals, p, m)
    } else {
        macro_or_foreign_item(goals, p, m)
    }
}

/// UNION_KW: the identifier `union`.
#[tactic(auto, unfolding(crate::specs::Items::union_word))]
fn union_word<R: Reader>(goals: &R, p: &mut Parser<'_>) -> Result<(), Fault>
    requires { R.can_read goals.now }
    ensures { Runs (R.reads goals.now) form.union_word p.old p.new result }
{
    let m = p.start();
    p.expect(IDENT)?;
    p.complete(&m, UNION_KW)
}

/// UNION: `union`, a NAME, perhaps parameters and a WHERE_CLAUSE, and fields in braces.
#[tactic(auto, unfolding(crate::specs::Items::union_item))]
fn union_item<R: Reader>(goals: &R, p: &mut Parser<'_>, m: &Mark<'_>) -> Result<(), Fault>
    requires { R.can_read goals.now }
    ensures { RunsFrom (R.reads goals.now) form.union_item m.now p.old p.new result }
{
    union_word(goals, p)?;
    name(goals, p)?;
    generic_params(goals, p, m)?;
    wheres(goals, p, m)?;
    record_field_list(goals, p)?;
    p.complete(m, UNION)
}

/// An item of the stated language that its first word tells.
#[tactic(auto, unfolding(crate::specs::Items::stated_type_or_value))]
fn stated_type_or_value<R: Reader>(goals: &R, p: &mut Parser<'_>, m: &Mark<'_>) -> Result<(), Fault>
    requires { R.can_read goals.now }
    ensures { RunsFrom (R.reads goals.now) form.stated_type_or_value m.now p.old p.new result }
{
    if p.at(CONST_KW) {
        const_item(goals, p, m)
    } else if p.at(STRUCT_KW) {
        struct_item(goals, p, m)
    } else if p.at(ENUM_KW) {
        enum_item(goals, p, m)
    } else if p.at_any(TraitFirst) {
        trait_item(goals, p, m)
    } else if p.at(MOD_KW) {
        mod_item(goals, p, m)
    } else if p.at(USE_KW) {
        use_item(goals, p, m)
    } else if p.at(STATIC_KW) {
        static_item(goals, p, m)
    } else {
        type_alias(goals, p, m)
    }
}

/// UNION, or an item of the stated language that its first word tells.
#[tactic(auto, using(ssr_syntax_forms::proofs::Shared::run_also_decide), unfolding(crate::specs::Items::union_or_stated))]
fn union_or_stated<R: Reader>(goals: &R, p: &mut Parser<'_>, m: &Mark<'_>) -> Result<(), Fault>
    requires { R.can_read goals.now }
    ensures { RunsFrom (R.reads goals.now) form.union_or_stated m.now p.old p.new result }
{
    if goals.is_whole() && at_union(p) {
        union_item(goals, p, m)
    } else {
        stated_type_or_value(goals, p, m)
    }
}

/// EXTERN_BLOCK, UNION, or an item of the stated language that its first word tells.
#[tactic(auto, using(ssr_syntax_forms::proofs::Shared::run_also_decide), unfolding(crate::specs::Items::extern_or_stated))]
fn extern_or_stated<R: Reader>(goals: &R, p: &mut Parser<'_>, m: &Mark<'_>) -> Result<(), Fault>
    requires { R.can_read goals.now }
    ensures { RunsFrom (R.reads goals.now) form.extern_or_stated m.now p.old p.new result }
{
    if goals.is_whole() && at_extern_block(p) {
        extern_block(goals, p, m)
    } else {
        union_or_stated(goals, p, m)
    }
}

/// An item that its first words tell.
#[tactic(auto, using(ssr_syntax_forms::proofs::Shared::run_also_decide), unfolding(crate::specs::Items::type_or_value_item))]
fn type_or_value_item<R: Reader>(goals: &R, p: &mut Parser<'_>, m: &Mark<'_>) -> Result<(), Fault>
    requires { R.can_read goals.now }
    ensures { RunsFrom (R.reads goals.now) form.type_or_value_item m.now p.old p.new result }
{
    if goals.is_whole() && at_extern_crate(p) {
        extern_crate(goals, p, m)
    } else {
        extern_or_stated(goals, p, m)
    }
}

/// An item of the stated language that may have a VISIBILITY in front, behind that.
#[tactic(auto, using(ssr_syntax_forms::proofs::Shared::run_decide), unfolding(crate::specs::Items::stated_named_item))]
fn stated_named_item<R: Reader>(goals: &R, p: &mut Parser<'_>, m: &Mark<'_>) -> Result<(), Fault>
    requires { R.can_read goals.now }
    ensures { RunsFrom (R.reads goals.now) form.stated_named_item m.now p.old p.new result }
{
    if at_fn(p) {
        function(goals, p, m, ItemPlace::InModule)
    } else {
        type_or_value_item(goals, p, m)
    }
}

/// An item that may have a VISIBILITY in front, behind that.
#[tactic(auto, using(ssr_syntax_forms::proofs::Shared::run_also_decide), unfolding(crate::specs::Items::named_item))]
fn named_item<R: Reader>(goals: &R, p: &mut Parser<'_>, m: &Mark<'_>) -> Result<(), Fault>
    requires { R.can_read goals.now }
    ensures { RunsFrom (R.reads goals.now) form.named_item m.now p.old p.new result }
{
    if goals.is_whole() && at_whole_fn(p) {
        function(goals, p, m, ItemPlace::InModule)
    } else {
        stated_named_item(goals, p, m)
    }
}

/// An item that may have a VISIBILITY in front.
#[tactic(auto, unfolding(crate::specs::Items::visible_item))]
fn visible_item<R: Reader>(goals: &R, p: &mut Parser<'_>, m: &Mark<'_>) -> Result<(), Fault>
    requires { R.can_read goals.now }
    ensures { RunsFrom (R.reads goals.now) form.visible_item m.now p.old p.new result }
{
    if p.at(PUB_KW) {
        visibility(goals, p)?;
    }
    named_item(goals, p, m)
}

/// CONST or TYPE_ALIAS.
#[tactic(auto, unfolding(crate::specs::Items::assoc_value_or_type))]
fn assoc_value_or_type<R: Reader>(goals: &R, p: &mut Parser<'_>, m: &Mark<'_>) -> Result<(), Fault>
    requires { R.can_read goals.now }
    ensures { RunsFrom (R.reads goals.now) form.assoc_value_or_type m.now p.old p.new result }
{
    if p.at(CONST_KW) {
        const_item(goals, p, m)
    } else {
        type_alias(goals, p, m)
    }
}

/// FN, CONST or TYPE_ALIAS of a TRAIT or an IMPL, as the stated language has them.
#[tactic(auto, using(ssr_syntax_forms::proofs::Shared::run_decide), unfolding(crate::specs::Items::stated_assoc_item))]
fn stated_assoc_item<R: Reader>(
    goals: &R,
    p: &mut Parser<'_>,
    m: &Mark<'_>,
    place: ItemPlace,
) -> Result<(), Fault>
    requires { R.can_read goals.now }
    ensures { RunsFrom (R.reads goals.now) (form.stated_assoc_item place) m.now p.old p.new result }
{
    if at_fn(p) {
        function(goals, p, m, place)
    } else {
        assoc_value_or_type(goals, p, m)
    }
}

/// FN, CONST or TYPE_ALIAS of a TRAIT or an IMPL.
#[tactic(auto, using(ssr_syntax_forms::proofs::Shared::run_also_decide), unfolding(crate::specs::Items::assoc_item))]
fn assoc_item<R: Reader>(
    goals: &R,
    p: &mut Parser<'_>,
    m: &Mark<'_>,
    place: ItemPlace,
) -> Result<(), Fault>
    requires { R.can_read goals.now }
    ensures { RunsFrom (R.reads goals.now) (form.assoc_item place) m.now p.old p.new result }
{
    if goals.is_whole() && at_whole_fn(p) {
        function(goals, p, m, place)
    } else {
        stated_assoc_item(goals, p, m, place)
    }
}

/// FN, CONST or TYPE_ALIAS of an IMPL, perhaps with a VISIBILITY in front.
#[tactic(auto, unfolding(crate::specs::Items::visible_assoc_item))]
fn visible_assoc_item<R: Reader>(goals: &R, p: &mut Parser<'_>, m: &Mark<'_>) -> Result<(), Fault>
    requires { R.can_read goals.now }
    ensures { RunsFrom (R.reads goals.now) form.visible_assoc_item m.now p.old p.new result }
{
    if p.at(PUB_KW) {
        visibility(goals, p)?;
    }
    assoc_item(goals, p, m, ItemPlace::InImpl)
}

/// An item of a module, behind its ATTRs, that is neither IMPL nor MACRO_RULES, as the stated language has it.
#[tactic(auto, using(ssr_syntax_forms::proofs::Shared::run_settle), unfolding(crate::specs::Items::stated_module_item))]
fn stated_module_item<R: Reader>(goals: &R, p: &mut Parser<'_>, m: &Mark<'_>) -> Result<(), Fault>
    requires { R.can_read goals.now }
    ensures { RunsFrom (R.reads goals.now) form.stated_module_item m.now p.old p.new result }
{
    if p.at_any(MacroPathFirst) {
        macro_item(goals, p, m)
    } else {
        visible_item(goals, p, m)
    }
}

/// The same, or UNION where all of Rust is read.
#[tactic(auto, using(ssr_syntax_forms::proofs::Shared::run_also_decide), unfolding(crate::specs::Items::module_item))]
fn module_item<R: Reader>(goals: &R, p: &mut Parser<'_>, m: &Mark<'_>) -> Result<(), Fault>
    requires { R.can_read goals.now }
    ensures { RunsFrom (R.reads goals.now) form.module_item m.now p.old p.new result }
{
    if goals.is_whole() && at_union(p) {
        union_item(goals, p, m)
    } else {
        stated_module_item(goals, p, m)
    }
}

/// An item of a module that is no IMPL, behind its ATTRs.
#[tactic(auto, using(ssr_syntax_forms::proofs::Shared::run_decide), unfolding(crate::specs::Items::macro_rules_or_module_item))]
fn macro_rules_or_module_item<R: Reader>(
    goals: &R,
    p: &mut Parser<'_>,
    m: &Mark<'_>,
) -> Result<(), Fault>
    requires { R.can_read goals.now }
    ensures { RunsFrom (R.reads goals.now) form.macro_rules_or_module_item m.now p.old p.new result }
{
    if at_macro_rules(p) {
        macro_rules(goals, p, m)
    } else {
        module_item(goals, p, m)
    }
}

/// An item of a module, behind its ATTRs.
#[tactic(auto, using(ssr_syntax_forms::proofs::Shared::run_decide), unfolding(crate::specs::Items::item_in_module))]
fn item_in_module<R: Reader>(goals: &R, p: &mut Parser<'_>, m: &Mark<'_>) -> Result<(), Fault>
    requires { R.can_read goals.now }
    ensures { RunsFrom (R.reads goals.now) form.item_in_module m.now p.old p.new result }
{
    if at_impl(p) {
        impl_item(goals, p, m)
    } else {
        macro_rules_or_module_item(goals, p, m)
    }
}

/// An item among statements that is no IMPL, behind its ATTRs.
#[tactic(auto, using(ssr_syntax_forms::proofs::Shared::run_decide), unfolding(crate::specs::Items::macro_rules_or_visible_item))]
fn macro_rules_or_visible_item<R: Reader>(
    goals: &R,
    p: &mut Parser<'_>,
    m: &Mark<'_>,
) -> Result<(), Fault>
    requires { R.can_read goals.now }
    ensures { RunsFrom (R.reads goals.now) form.macro_rules_or_visible_item m.now p.old p.new result }
{
    if at_macro_rules(p) {
        macro_rules(goals, p, m)
    } else {
        visible_item(goals, p, m)
    }
}

/// An item among statements, behind its ATTRs.
#[tactic(auto, using(ssr_syntax_forms::proofs::Shared::run_decide), unfolding(crate::specs::Items::item_as_stmt))]
pub(crate) fn item_as_stmt<R: Reader>(
    goals: &R,
    p: &mut Parser<'_>,
    m: &Mark<'_>,
) -> Result<(), Fault>
    requires { R.can_read goals.now }
    ensures { RunsFrom (R.reads goals.now) form.item_as_stmt m.now p.old p.new result }
{
    if at_impl(p) {
        impl_item(goals, p, m)
    } else {
        macro_rules_or_visible_item(goals, p, m)
    }
}

/// An item of an IMPL, behind its ATTRs.
#[tactic(auto, unfolding(crate::specs::Items::item_in_impl))]
fn item_in_impl<R: Reader>(goals: &R, p: &mut Parser<'_>, m: &Mark<'_>) -> Result<(), Fault>
    requires { R.can_read goals.now }
    ensures { RunsFrom (R.reads goals.now) form.item_in_impl m.now p.old p.new result }
{
    if p.at_any(MacroPathFirst) {
        macro_item(goals, p, m)
    } else {
        visible_assoc_item(goals, p, m)
    }
}

/// An item of a TRAIT, behind its ATTRs.
#[tactic(auto, unfolding(crate::specs::Items::item_in_trait))]
fn item_in_trait<R: Reader>(goals: &R, p: &mut Parser<'_>, m: &Mark<'_>) -> Result<(), Fault>
    requires { R.can_read goals.now }
    ensures { RunsFrom (R.reads goals.now) form.item_in_trait m.now p.old p.new result }
{
    if p.at_any(MacroPathFirst) {
        macro_item(goals, p, m)
    } else {
        assoc_item(goals, p, m, ItemPlace::InTrait)
    }
}

/// An item as it stands there, behind its ATTRs.
#[tactic(auto, unfolding(crate::specs::Items::item_behind_attrs))]
fn item_behind_attrs<R: Reader>(
    goals: &R,
    p: &mut Parser<'_>,
    m: &Mark<'_>,
    place: ItemPlace,
) -> Result<(), Fault>
    requires { R.can_read goals.now }
    ensures { RunsFrom (R.reads goals.now) (form.item_behind_attrs place) m.now p.old p.new result }
{
    match place {
        ItemPlace::InModule => item_in_module(goals, p, m),
        ItemPlace::AsStmt => item_as_stmt(goals, p, m),
        ItemPlace::InImpl => item_in_impl(goals, p, m),
        ItemPlace::InTrait => item_in_trait(goals, p, m),
        ItemPlace::InExtern => item_in_extern(goals, p, m),
    }
}

/// An item as it stands there.
#[tactic(auto, unfolding(crate::specs::Items::item))]
pub fn item<R: Reader>(
    goals: &R,
    p: &mut Parser<'_>,
    m: &Mark<'_>,
    place: ItemPlace,
) -> Result<(), Fault>
    requires { R.can_read goals.now }
    ensures { RunsFrom (R.reads goals.now) (form.item place) m.now p.old p.new result }
{
    attrs(goals, p)?;
    item_behind_attrs(goals, p, m, place)
}

/// SOURCE_FILE: ATTRs of the file and items.
#[tactic(auto, using(ssr_syntax_forms::proofs::Shared::run_as_long_as, ssr_syntax_forms::proofs::Shared::run_repeated_by), unfolding(crate::specs::Items::source_file))]
pub fn source_file<R: Reader>(goals: &R, p: &mut Parser<'_>) -> Result<(), Fault>
    requires { R.can_read goals.now }
    ensures { Runs (R.reads goals.now) form.source_file p.old p.new result }
{
    let m = p.start();
    p.repeated_two(POUND, BANG, |p| inner_attr(goals, p))?;
    p.repeated(
        ModuleItemFirst(goals.is_whole()),
        |p| goals.read(p, Goal::Item(ItemPlace::InModule)),
    )?;
    p.complete(&m, SOURCE_FILE)
}

/// MACRO_ITEMS: the items that a macro call stands for.
#[tactic(auto, using(ssr_syntax_forms::proofs::Shared::run_repeated_by), unfolding(crate::specs::Items::macro_items))]
pub fn macro_items<R: Reader>(goals: &R, p: &mut Parser<'_>) -> Result<(), Fault>
    requires { R.can_read goals.now }
    ensures { Runs (R.reads goals.now) form.macro_items p.old p.new result }
{
    let m = p.start();
    p.repeated(
        ModuleItemFirst(goals.is_whole()),
        |p| goals.read(p, Goal::Item(ItemPlace::InModule)),
    )?;
    p.complete(&m, MACRO_ITEMS)
}
