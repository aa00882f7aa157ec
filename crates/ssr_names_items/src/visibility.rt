//! Where an item is seen.

use crate::code::Code;
use crate::modules::Modules;
use crate::table::{ModuleNo, Visibility};
use ssr_syntax_kinds::SyntaxKind;
use ssr_syntax_tree::NodeNo;

/// Where an item, a `use` or a field is seen that stands in a module.
pub(crate) fn visibility_of(
    code: Code<'_>,
    item: NodeNo,
    modules: &Modules,
    module: ModuleNo,
) -> Visibility {
    match code.child(item, SyntaxKind::VISIBILITY) {
        Some(node) => stated(code, node, modules, module),
        None => Visibility::In(module),
    }
}

/// Where it is seen as `pub`, `pub(crate)`, `pub(super)` and the like say.
fn stated(code: Code<'_>, node: NodeNo, modules: &Modules, module: ModuleNo) -> Visibility {
    let mut above = 0u32;
    let mut below = None;
    let mut is_restricted = false;
    let tokens = code.tokens(node);
    for token in tokens.start..tokens.end {
        match code.token_kind(token) {
            SyntaxKind::L_PAREN => is_restricted = true,
            SyntaxKind::SUPER_KW => above = above.saturating_add(1),
            SyntaxKind::CRATE_KW => below = Some(0u32),
            SyntaxKind::IDENT => below = Some(below.unwrap_or(0).saturating_add(1)),
            _ => {}
        }
    }
    if !is_restricted {
        return Visibility::Public;
    }
    match below {
        Some(below) => Visibility::In(modules.ancestor_at(module, below)),
        None => Visibility::In(modules.ancestor(module, above)),
    }
}

/// Of two places the one that is part of the other: both hold one module.
pub(crate) fn narrower(one: Visibility, other: Visibility) -> Visibility {
    match (one, other) {
        (Visibility::Public, _) => other,
        (_, Visibility::Public) => one,
        (Visibility::In(a), Visibility::In(b)) if a.0 < b.0 => Visibility::In(b),
        _ => one,
    }
}

/// Where a structure with unnamed fields is seen as a function: where it and all of its fields are.
pub(crate) fn of_fields(
    code: Code<'_>,
    fields: NodeNo,
    modules: &Modules,
    module: ModuleNo,
    own: Visibility,
) -> Visibility {
    let mut least = own;
    let end = code.end(fields);
    for number in fields.0.saturating_add(1)..end {
        let field = NodeNo(number);
        if code.kind(field).is(SyntaxKind::TUPLE_FIELD) {
            least = narrower(least, visibility_of(code, field, modules, module));
        }
    }
    least
}
