//! What is written for a match whose placeholders' lists can be made.

ghost use Rattle.std.specs.Prelude.{◌≡◌, IfOk, None, Some, if◌then◌else◌, map, option_map, string_bytes};
ghost use Rattle.ssr_base_trees.specs.Workspace.{trees};
ghost use Rattle.ide_ssr_bindings.specs.Found.{IsMatch};
ghost use Rattle.ide_ssr_rewriting.specs.Private.Pieces.{piece_bytes};
ghost use Rattle.ide_ssr_rewriting.specs.Replacements.{prefix_by, template_text, text_of_match, writing};

use crate::piece::Piece;
use crate::prefixes::{has_prefix, prefix};
use crate::printing::printed_paths;
use crate::rendering::rendered;
use crate::replacements::push_kept;
use ide_ssr_bindings::{Binding, FoundMatch};
use ide_ssr_resolved_rule::ResolvedRule;
use ssr_base_trees::{Semantics, Trees};
use ssr_syntax_shorts::MadeText;
use std::alloc::{AllocError, Global};

/// What matches are written by: the rules, and a provider, which tells what names mean.
#[derive(Drop)]
pub(crate) struct Writer<'a, S: Semantics> {
    pub(crate) alloc: Global,
    pub(crate) semantics: &'a S,
    pub(crate) rules: &'a [ResolvedRule],
}

impl<'a, S: Semantics> Writer<'a, S> {
    /// What is written in front of what a placeholder of a match of the rule with this place holds.
    #[tactic(auto, unfolding(crate::specs::Replacements::prefix_by))]
    pub(crate) fn prefix(&self, rule: usize, binding: Binding) -> Result<String, AllocError>
        ensures { IfOk result (λ text. string_bytes text ≡ prefix_by self.now.rules.now rule binding) }
    {
        // Most placeholders hold no receiver, and then the rule isn't asked.
        if !has_prefix(binding) {
            return Ok(String::new(self.alloc));
        }
        let Some(rule) = self.rules.get(rule) else {
            return Ok(String::new(self.alloc));
        };
        if rule.is_receiver(binding.placeholder) {
            return Ok(String::new(self.alloc));
        }
        prefix(self.alloc, binding)
    }

    /// What the template of the match's rule gives with these pieces.
    fn template_text(
        &self,
        workspace: &Trees,
        m: &FoundMatch,
        pieces: &[Piece<'_>],
    ) -> Result<MadeText, AllocError>
        ensures { IfOk result (λ text. text ≡ template_text (writing (S.meanings self.now.semantics.now) self.now.rules.now) m.now (map piece_bytes pieces.now)) }
    {
        let Some(rule) = self.rules.get(m.rule()) else {
            let none = String::new(self.alloc);
            return Ok(MadeText::new(workspace.reach(), none));
        };
        let printed = printed_paths(self.alloc, self.semantics, rule, m.node())?;
        rendered(self.alloc, rule, m.bindings(), pieces, &printed)
    }

    /// What stands for a match whose placeholders have these pieces.
    #[tactic(auto, unfolding(crate::specs::Replacements::text_of_match))]
    fn text_of_match(
        &self,
        workspace: &Trees,
        m: &FoundMatch,
        pieces: &[Piece<'_>],
    ) -> Result<MadeText, AllocError>
        requires { IsMatch (trees workspace.now) m.now }
        ensures { IfOk result (λ text. text ≡ text_of_match workspace.now (writing (S.meanings self.now.semantics.now) self.now.rules.now) m.now (map piece_bytes pieces.now)) }
    {
        let mut text = self.template_text(workspace, m, pieces)?;
        let mut comments = String::new(self.alloc);
        push_kept(self.alloc, workspace, m, &mut comments)?;
        text.push_str(comments.as_str())?;
        Ok(text)
    }

    /// What stands for a match with these pieces, if they are all.
    pub(crate) fn text_of_pieces(
        &self,
        workspace: &Trees,
        m: &FoundMatch,
        pieces: &[Piece<'_>],
        are_all: bool,
    ) -> Result<Option<MadeText>, AllocError>
        requires { IsMatch (trees workspace.now) m.now }
        ensures { IfOk result (λ text. text ≡ option_map (text_of_match workspace.now (writing (S.meanings self.now.semantics.now) self.now.rules.now) m.now) (if are_all then Some (map piece_bytes pieces.now) else None)) }
    {
        if !are_all {
            return Ok(None);
        }
        Ok(Some(self.text_of_match(workspace, m, pieces)?))
    }
}
