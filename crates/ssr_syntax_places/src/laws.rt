//! What holds of trees that fit, whatever the code: each function here does nothing, and what it ensures is a law.
ghost use Rattle.std.specs.Prelude.{Some, ◌≡◌, ◌+◌, ◌^◌, ◌<◌, ◌≤◌, ◌&&◌, Bool, true, false, ℕ, List, [], ◌∷◌, ◌++◌, length, IsTrue, Ok};
ghost use Rattle.ssr_syntax_kinds.specs.declared.reach.Reach.{Reach};
ghost use Rattle.ssr_syntax_kinds.specs.declared.kinds.SyntaxKind.{SyntaxKind};
ghost use Rattle.ssr_syntax_kinds.specs.declared.kinds.SyntaxKind.TheVariants as k;
ghost use Rattle.ssr_syntax_forms.specs.Fitting.{Fits};
ghost use Rattle.ssr_syntax_forms.specs.Forms.{Condition, holds, next};
ghost use Rattle.ssr_syntax_forms.specs.Kinds.{mem};
ghost use Rattle.ssr_syntax_forms.specs.Trees.{Forest, done, join, leaf, spell};
ghost use Rattle.ssr_syntax_forms.specs.declared.tokens.Token.{Token};
ghost use Rattle.ssr_syntax_types.specs.declared.goals.Goal.{Goal};
ghost use Rattle.ssr_syntax_types.specs.declared.goals.ExprPlace.TheVariants.{Anywhere};
ghost use Rattle.ssr_syntax_types.specs.declared.goals.Goal.TheVariants.{Expr, StmtList};
ghost use Rattle.ssr_syntax_lex.specs.declared.tokens.RawToken.{RawToken};
ghost use Rattle.ssr_syntax_rows.specs.Solid.{pieces, solid_tokens};
ghost use Rattle.ssr_syntax_places.specs.Woven.{Part, Cut, AreWoven, AreCut, AreCuts, AreReplaced, StandFor, cut_text, pieces_parts, solid_parts, woven};
ghost use Rattle.ssr_syntax_types.specs.Literals.{literals};
ghost use Rattle.ssr_syntax_types.specs.Types.{ampersands};
ghost use Rattle.ssr_syntax_exprs.specs.Expressions.{assignments, operators, prefix_operators, ranks};
ghost use Rattle.ssr_syntax.specs.Grammar.{grammar_of};
ghost use Rattle.ssr_syntax_places.specs.Core.{Hole, Holes, hole_of, are_spelled, is_single, IsFilling, AreFillings, core, filled, node_filled, tokens_filled};
ghost use Rattle.ssr_syntax_places.specs.Delimited.{is_within, are_whole, delimiters};
ghost use Rattle.std.specs.Str.{IsUtf8};
ghost use Rattle.ssr_syntax_lex.specs.Seams.{is_seam, has_token_at};
ghost use Rattle.ssr_syntax_lex.specs.Tokens.{tokens};
ghost use Rattle.ssr_syntax_places.specs.Insides.{with_inside, IsLexed, HasParts, AreParts};
ghost use Rattle.ssr_syntax_kinds.specs.declared.fragment.Fragment.TheVariants as fragments;
ghost use Rattle.ssr_syntax_tree.specs.Syntax as plain;
ghost use Rattle.ssr_syntax_tree.specs.Syntax.{Syntax, depth_of};
ghost use Rattle.ssr_syntax_kinds.specs.declared.fragment.Fragment.{Fragment};
ghost use Rattle.ssr_syntax.specs.Reading.{fragment_reading_of, trimmed, FitsFragmentOf};
ghost use Rattle.ssr_syntax_places.specs.LongTexts.{AreNamed, ArePaired, HasForest, IsBehind, IsReadAlone, IsReadFilled, IsWholeOf, filled_height, holes_in, unless_deep};
ghost use Rattle.ssr_syntax_places.specs.PlainCore.{forest_in, is_core_tree, solid_size};
ghost use Rattle.ssr_syntax_rows.specs.Lossless.{whole_tree};
ghost use Rattle.ssr_syntax_places.specs.Spans.{has_node_at, AreSameBytes};
ghost use Rattle.ssr_syntax_places.specs.Placing.{begins_open, blocks, is_asked, Puts};
ghost use Rattle.ssr_syntax_places.specs.Standing.{node, closing_marks, is_token, IsPath, token_leaf, Stands, StandsAnywhere, StandsBefore, AreArguments, between, bracketed, with_name};

/// A literal stands wherever an expression does, and so does a path of names.
pub fn atoms()
    ensures literal { (reach : Reach) (us : List Token) → IsTrue (is_token literals us)
        → Stands reach 0 true (node k.LITERAL (token_leaf us)) us }
    ensures path { (reach : Reach) (z : Forest) (us : List Token) → IsPath z us → Stands reach 0 true (node k.PATH_EXPR z) us }
{}

/// What stands where an expression must bind tightly stands where it may bind more loosely, and as any expression.
pub fn looser()
    ensures looser { (reach : Reach) (n m : ℕ) (callable : Bool) (z : Forest) (us : List Token) → n ≤ m → Stands reach n callable z us
        → Stands reach m callable z us }
    ensures uncalled { (reach : Reach) (n : ℕ) (callable : Bool) (z : Forest) (us : List Token) → Stands reach n callable z us
        → Stands reach n false z us }
    ensures anywhere { (reach : Reach) (n : ℕ) (callable : Bool) (z : Forest) (us : List Token) → n ≤ 12 → Stands reach n callable z us
        → StandsAnywhere reach z us }
{}

/// An operator in front of an operand, and one between two, stand where they may bind as loosely as they do, if their
/// operands bind tightly enough: in front of a right operand of a rank stands a left one of at most that rank.
pub fn operators()
    ensures prefix { (reach : Reach) (callable : Bool) (y : Forest) (op us : List Token) → IsTrue (is_token prefix_operators op)
        → Stands reach 2 callable y us → Stands reach 2 callable (node k.PREFIX_EXPR (join (token_leaf op) y)) (op ++ us) }
    ensures reference { (reach : Reach) (callable : Bool) (y : Forest) (t : Token) (us : List Token)
        → IsTrue (mem t.joined ampersands && mem t.kind ampersands)
        → Stands reach 2 callable y us → Stands reach 2 callable (node k.REF_EXPR (leaf t.kind (t ∷ []) y)) (t ∷ us) }
    ensures mut_reference { (reach : Reach) (callable : Bool) (y : Forest) (t : Token) (word us : List Token)
        → IsTrue (mem t.joined ampersands && mem t.kind ampersands) → IsTrue (is_token (k.MUT_KW ∷ []) word)
        → Stands reach 2 callable y us
        → Stands reach 2 callable (node k.REF_EXPR (leaf t.kind (t ∷ []) (join (token_leaf word) y))) (t ∷ (word ++ us)) }
    ensures binary { (reach : Reach) (r : ℕ) (called callable : Bool) (x y : Forest) (us op vs : List Token) → r < length ranks
        → IsTrue (is_token (operators r) op) → Stands reach (4 + r) called x us → Stands reach (3 + r) callable y vs
        → Stands reach (4 + r) callable (node k.BIN_EXPR (join (join x (token_leaf op)) y)) (us ++ (op ++ vs)) }
{}

/// Ranges and assignments, which bind least, are expressions, whatever follows.
pub fn loosest()
    ensures range { (reach : Reach) (called callable : Bool) (x y : Forest) (us dots vs : List Token) → IsTrue (is_token (k.DOT2 ∷ []) dots)
        → Stands reach 12 called x us → Stands reach 12 callable y vs
        → StandsAnywhere reach (node k.RANGE_EXPR (join (join x (token_leaf dots)) y)) (us ++ (dots ++ vs)) }
    ensures inclusive { (reach : Reach) (called callable : Bool) (x y : Forest) (us dots vs : List Token) → IsTrue (is_token (k.DOT2EQ ∷ []) dots)
        → Stands reach 12 called x us → Stands reach 12 callable y vs
        → StandsAnywhere reach (node k.RANGE_EXPR (join (join x (token_leaf dots)) y)) (us ++ (dots ++ vs)) }
    ensures assignment { (reach : Reach) (called : Bool) (x y : Forest) (us op vs : List Token) → IsTrue (is_token assignments op)
        → Stands reach 12 called x us → StandsAnywhere reach y vs
        → StandsAnywhere reach (node k.BIN_EXPR (join (join x (token_leaf op)) y)) (us ++ (op ++ vs)) }
{}

/// Whatever fits before a parenthesis stands in parentheses wherever an expression does.
pub fn parentheses()
    ensures { (reach : Reach) (z : Forest) (opening us closing : List Token)
        → IsTrue (is_token (k.L_PAREN ∷ []) opening) → IsTrue (is_token (k.R_PAREN ∷ []) closing) → StandsBefore reach closing z us
        → Stands reach 0 true (bracketed k.PAREN_EXPR opening z closing) (between opening us closing) }
{}

/// An expression that may be gone on with is gone on with by a `?`, an index, a call, a field and a call of a method,
/// whatever stands in their brackets that fits before them. A field that has a name isn't called.
pub fn postfixes()
    ensures asked { (reach : Reach) (before : Bool) (x : Forest) (us op : List Token) → IsTrue (is_token (k.QUESTION ∷ []) op)
        → Stands reach 1 before x us → Stands reach 1 true (node k.TRY_EXPR (join x (token_leaf op))) (us ++ op) }
    ensures index { (reach : Reach) (before : Bool) (x y : Forest) (us opening vs closing : List Token)
        → IsTrue (is_token (k.L_BRACK ∷ []) opening) → IsTrue (is_token (k.R_BRACK ∷ []) closing)
        → Stands reach 1 before x us → StandsBefore reach closing y vs
        → Stands reach 1 true (node k.INDEX_EXPR (join (join (join x (token_leaf opening)) y) (token_leaf closing))) (us ++ between opening vs closing) }
    ensures call { (reach : Reach) (x y : Forest) (us opening vs closing : List Token)
        → IsTrue (is_token (k.L_PAREN ∷ []) opening) → IsTrue (is_token (k.R_PAREN ∷ []) closing)
        → Stands reach 1 true x us → AreArguments reach closing y vs
        → Stands reach 1 true (node k.CALL_EXPR (join x (bracketed k.ARG_LIST opening y closing))) (us ++ between opening vs closing) }
    ensures method_call { (reach : Reach) (before : Bool) (x y : Forest) (us dot name opening vs closing : List Token)
        → IsTrue (is_token (k.DOT ∷ []) dot) → IsTrue (is_token (k.IDENT ∷ []) name)
        → IsTrue (is_token (k.L_PAREN ∷ []) opening) → IsTrue (is_token (k.R_PAREN ∷ []) closing)
        → Stands reach 1 before x us → AreArguments reach closing y vs
        → Stands reach 1 true (node k.METHOD_CALL_EXPR (join (with_name x dot name) (bracketed k.ARG_LIST opening y closing)))
        (us ++ (dot ++ (name ++ between opening vs closing))) }
    ensures field { (reach : Reach) (before : Bool) (x : Forest) (us dot name : List Token)
        → IsTrue (is_token (k.DOT ∷ []) dot) → IsTrue (is_token (k.IDENT ∷ []) name) → Stands reach 1 before x us
        → Stands reach 1 false (node k.FIELD_EXPR (with_name x dot name)) (us ++ (dot ++ name)) }
    ensures number { (reach : Reach) (before : Bool) (x : Forest) (us dot number : List Token)
        → IsTrue (is_token (k.DOT ∷ []) dot) → IsTrue (is_token (k.INT_NUMBER ∷ []) number) → Stands reach 1 before x us
        → Stands reach 1 true (node k.FIELD_EXPR (with_name x dot number)) (us ++ (dot ++ number)) }
{}

/// An expression, and whatever is asked for on the way from one, fits between brackets exactly if it fits alone: no rule
/// looks for a delimiter. So what fits alone stands before a bracket or a comma. Statements in braces fit whatever follows.
/// What is asked of the tokens holds of those of a text.
pub fn delimited()
    ensures alike { (reach : Reach) (asked : Goal) (z : Forest) (us a b : List Token) → IsTrue (is_within asked) → IsTrue (are_whole us)
        → IsTrue (mem (next a) delimiters) → IsTrue (mem (next b) delimiters)
        → Fits (grammar_of reach) (grammar_of reach asked) done z us a
        → Fits (grammar_of reach) (grammar_of reach asked) done z us b }
    ensures block { (reach : Reach) (z : Forest) (us a b : List Token) → IsTrue (are_whole us)
        → Fits (grammar_of reach) (grammar_of reach StmtList) done z us a
        → Fits (grammar_of reach) (grammar_of reach StmtList) done z us b }
    ensures alone { (reach : Reach) (z : Forest) (us closing : List Token) → IsTrue (are_whole us) → IsTrue (is_token closing_marks closing)
        → Fits (grammar_of reach) (grammar_of reach (Expr Anywhere)) done z us [] → StandsBefore reach closing z us }
    ensures whole { (raw : List RawToken) → IsTrue (are_whole (solid_tokens raw)) }
{}

/// A core template, in which names stand for expressions that bind tightly enough there, or stand in brackets, is filled
/// with these to an expression that stands wherever the template does.
pub fn filled()
    ensures stands { (reach : Reach) (holes : Holes) → AreFillings reach holes
        → (callable : Bool) (n at : ℕ) (kind : SyntaxKind) (kids : Forest) → n ≤ 12 → IsTrue (core holes callable n at kind kids)
        → Stands reach n callable (node_filled holes at kind kids) (tokens_filled holes at (spell kids)) }
    ensures fits { (reach : Reach) (holes : Holes) → AreFillings reach holes
        → (kind : SyntaxKind) (kids : Forest) (rest : List Token) → IsTrue (core holes false 12 0 kind kids) → IsTrue (mem (next rest) delimiters)
        → Fits (grammar_of reach) (grammar_of reach (Expr Anywhere)) done (filled holes 0 (node kind kids)) (tokens_filled holes 0 (spell (node kind kids))) rest }
{}

/// The tokens of a filled template, one part of it behind another: a token that stands for itself stays, and one that stands
/// for an expression gives way to its tokens.
pub fn filled_tokens()
    ensures append { (holes : Holes) (at : ℕ) (us vs : List Token)
        → tokens_filled holes at (us ++ vs) ≡ tokens_filled holes at us ++ tokens_filled holes (at + length us) vs }
    ensures spelled { (holes : Holes) (at : ℕ) (us : List Token) → IsTrue (are_spelled holes at us) → tokens_filled holes at us ≡ us }
    ensures single { (holes : Holes) (at : ℕ) (hole : Hole) (us : List Token) → IsTrue (is_single us) → holes at ≡ Some hole
        → tokens_filled holes at us ≡ hole.tokens }
{}

/// What stands may fill a template, and so may any expression that fits alone, though between brackets only.
pub fn fillings()
    ensures stands { (reach : Reach) (n : ℕ) (callable : Bool) (z : Forest) (us : List Token) → n ≤ 12 → Stands reach n callable z us
        → IsFilling reach (hole_of n callable z us) }
    ensures alone { (reach : Reach) (z : Forest) (us : List Token) → IsTrue (are_whole us)
        → Fits (grammar_of reach) (grammar_of reach (Expr Anywhere)) done z us [] → IsFilling reach (hole_of 13 false z us) }
{}

/// What stands in a text between two brackets, commas or `;` is lexed by itself, if both are tokens of the text. Any other
/// text that is lexed may stand in its place: the tokens around it stay what they are, and so do their texts.
pub fn insides()
    ensures cut { (front inside behind : List ℕ) (opening closing : ℕ) (raw : List RawToken) → IsUtf8 front → IsUtf8 inside
        → IsTrue (is_seam opening) → IsTrue (is_seam closing) → tokens (with_inside front opening inside (closing ∷ behind)) ≡ Some raw
        → IsTrue (has_token_at (length front) raw) → IsTrue (has_token_at ((length front + 1) + length inside) raw)
        → AreParts front opening inside (closing ∷ behind) raw }
    ensures put { (front inside behind : List ℕ) (opening closing : ℕ) (before within after : List RawToken) → IsUtf8 front
        → IsTrue (is_seam opening) → IsTrue (is_seam closing) → IsLexed (front ++ opening ∷ []) before → IsLexed inside within
        → tokens (closing ∷ behind) ≡ Some after → HasParts front opening inside (closing ∷ behind) before within after }
{}

/// A text with several insides, each behind a character that opens it and in front of one that closes it, is cut into parts,
/// and other insides may stand there. It has the tokens of its parts, if each is lexed by itself. With a name in the place of
/// each inside they are those of a template, whose filled tokens are those of the text. So the text fits, with the filled
/// template as its tree, if the template is core.
pub fn many_insides()
    ensures cut { (cs : List Cut) (last : List ℕ) (raw : List RawToken) → tokens (cut_text cs last) ≡ Some raw → AreCuts 0 raw cs last → AreCut cs last }
    ensures replaced { (short long : List Part) (last : List ℕ) → AreWoven short last → AreReplaced short long → AreWoven long last }
    ensures lexes { (parts : List Part) (last : List ℕ) (after : List RawToken) → AreWoven parts last → tokens last ≡ Some after
        → (raw : List RawToken) × (tokens (woven parts last) ≡ Some raw) × (solid_tokens raw ≡ solid_parts parts (solid_tokens after))
        × (pieces (woven parts last) raw ≡ pieces_parts parts (pieces last after)) }
    ensures filled { (holes : Holes) (at : ℕ) (short long : List Part) (after : List Token) → StandFor holes at short long after
        → tokens_filled holes at (solid_parts short after) ≡ solid_parts long after }
    ensures fits { (reach : Reach) (holes : Holes) (short long : List Part) (last : List ℕ) (after : List RawToken) (kind : SyntaxKind) (kids : Forest)
        → AreFillings reach holes → AreWoven long last → tokens last ≡ Some after → StandFor holes 0 short long (solid_tokens after)
        → spell (node kind kids) ≡ solid_parts short (solid_tokens after) → IsTrue (core holes false 12 0 kind kids)
        → (raw : List RawToken) × (tokens (woven long last) ≡ Some raw)
        × Fits (grammar_of reach) (grammar_of reach (Expr Anywhere)) done (filled holes 0 (node kind kids)) (solid_tokens raw) [] }
{}

/// What is read of a text has a forest behind it, which fits the text's tokens. What fits is read, unless it is too deep.
/// The forest is core if the kinds of the tree's tokens say so: a walk over the tree decides, and counts tokens as the forest
/// does. A text that is read alone is what a name may stand for.
pub fn readings()
    ensures behind { (reach : Reach) (text : List ℕ) (syntax : Syntax) → IsUtf8 (trimmed text)
        → fragment_reading_of reach fragments.Expr text ≡ Ok syntax → HasForest reach text syntax }
    ensures told { (reach : Reach) (fragment : Fragment) (text : List ℕ) (syntax : Syntax) → length text < 2 ^ 32
        → FitsFragmentOf reach fragment text syntax → fragment_reading_of reach fragment text ≡ unless_deep syntax }
    ensures core { (reach : Reach) (holes : Holes) (callable : Bool) (n : ℕ) (text : List ℕ) (raw : List RawToken) (kind : SyntaxKind) (kids : Forest)
        → IsBehind reach text raw kind kids → IsTrue (is_core_tree holes callable n (whole_tree kind kids (pieces (trimmed text) raw)))
        → IsTrue (core holes callable n 0 kind kids) }
    ensures counted { (z : plain.Forest) → length (spell (forest_in z)) ≡ solid_size (plain.tokens_in z) }
    ensures alone { (reach : Reach) (text : List ℕ) (syntax : Syntax) → IsUtf8 text → trimmed text ≡ text → 0 < length text
        → FitsFragmentOf reach fragments.Expr text syntax → IsReadAlone reach text syntax }
{}

/// A long text need not be read. With a name in the place of each inside it is a short text, and if the short text's tree is
/// core, the long text's tree is that of the filled template. No inside misnames a macro, so neither does the whole. How deep
/// the tree is can be computed from the short one. Bytes of the long text that don't begin or end within an inside are a node if
/// the same bytes of the short text are, and only then.
pub fn long_texts()
    ensures paired { (reach : Reach) (short long : List Part) (holes : List Hole) (last : List ℕ) (after : List RawToken) → AreWoven short last
        → AreWoven long last → tokens last ≡ Some after → AreNamed reach short long holes
        → ArePaired reach (holes_in 0 short holes) short long last after }
    ensures fits { (reach : Reach) (holes : Holes) (short long : List Part) (last : List ℕ) (after : List RawToken) (name text : List ℕ)
        (raw : List RawToken) (kind : SyntaxKind) (kids : Forest) → ArePaired reach holes short long last after
        → trimmed name ≡ woven short last → trimmed text ≡ woven long last → IsBehind reach name raw kind kids
        → IsTrue (core holes false 12 0 kind kids) → (syntax : Syntax) × IsWholeOf reach text (filled holes 0 (node kind kids)) syntax }
    ensures read { (reach : Reach) (holes : Holes) (short long : List Part) (last : List ℕ) (after : List RawToken) (name text : List ℕ)
        (syntax : Syntax) → ArePaired reach holes short long last after → trimmed name ≡ woven short last → trimmed text ≡ woven long last
        → IsUtf8 (trimmed name) → length text < 2 ^ 32 → fragment_reading_of reach fragments.Expr name ≡ Ok syntax
        → IsTrue (is_core_tree holes false 12 syntax) → IsReadFilled reach holes name text syntax }
    ensures depth { (reach : Reach) (holes : Holes) (name text : List ℕ) (short : Syntax) (read : IsReadFilled reach holes name text short)
        → 1 + depth_of read.long ≡ filled_height holes 0 (node short.kind (forest_in short.children)) }
    ensures nodes { (reach : Reach) (holes : Holes) (short long : List Part) (last : List ℕ) (after : List RawToken) (name text : List ℕ)
        (syntax : Syntax) → ArePaired reach holes short long last after → trimmed name ≡ woven short last → trimmed text ≡ woven long last
        → (read : IsReadFilled reach holes name text syntax) (front long_front from to long_from long_to : ℕ)
        → AreSameBytes short long from to long_from long_to
        → has_node_at syntax front (front + from) (front + to) ≡ has_node_at read.long long_front (long_front + long_from) (long_front + long_to) }
{}

/// Statements in braces are replaced wherever they stand in a tree that fits: with others in their places that fit, too, the
/// tree still fits. No rule looks past a brace that opens or closes. Where the old statements have neither `<` nor `(`, as in
/// the path of a macro, the new ones may not have them.
pub fn blocks()
    ensures replaced { (reach : Reach) (asked : Goal) (z w : Forest) (us : List Token) → IsTrue (are_whole us)
        → Fits (grammar_of reach) (grammar_of reach asked) done z us [] → Puts (grammar_of reach) blocks z w
        → Fits (grammar_of reach) (grammar_of reach asked) done w (spell w) [] }
    ensures put { (reach : Reach) (old new : Forest) → IsTrue (begins_open (spell old)) → IsTrue (begins_open (spell new))
        → ((condition : Condition) → IsTrue (is_asked condition) → IsTrue (holds condition (spell old)) → IsTrue (holds condition (spell new)))
        → IsTrue (are_whole (spell new)) → Fits (grammar_of reach) (grammar_of reach StmtList) done (node k.STMT_LIST new) (spell new) []
        → Puts (grammar_of reach) blocks (node k.STMT_LIST old) (node k.STMT_LIST new) }
{}
