//! A facts file read to plain rows.
//!
//! A facts file tells a search what its files hold and what names in them mean. It is one JSON object. A key that isn't
//! named here is refused, in the objects of rows too, and so is a number that isn't an integer from 0 up to 4,294,967,295
//! or is written as `1.0`, `1e0` or `-0`. Of a key that stands twice the last value counts. Each key may lack: then it
//! has no rows.
//!
//! | Key | Rows |
//! |---|---|
//! | `files` | `{"name": text, "text": text}` |
//! | `expansions` | `{"call": [tree, start, end], "kind": "expr", "items" or "stmts", "tokens": [token, ..]}` |
//! | `defs` | `{"kind": kind, "assoc": false, "self": false, "type": 0}`; these are the values of keys that lack, and the kind has to stand |
//! | `scopes` | `[tree, start, end]` |
//! | `names` | `[scope, [text, ..], resolution]` |
//! | `members` | `[scope, definition, name, definition]` |
//! | `paths` | `[tree, start, end, resolution]` |
//! | `methods` | `[tree, start, end, definition, "owned", "ref" or "mut"]` |
//! | `types` | `[tree, start, end, [type, ..]]` |
//! | `printed` | `[scope, definition, text]` |
//! | `position` | `[file, offset]`: no list of rows but one, which may lack |
//! | `ranges` | `[file, start, end]` |
//!
//! A token is `[text, joint]` or `[text, joint, start, end]`, where `joint` is a flag. A resolution is a pair of
//! `def`, `local`, `typeparam`, `constparam`, `selftype` or `other` and a number, as `["def", 3]`. The kind of a
//! definition is `module`, `function`, `adt`, `variant`, `const`, `static`, `trait`, `type_alias`, `builtin` or `macro`.
//! No start stands above its end. Whether there are trees, files and definitions of such numbers isn't looked at.
#![tactic(auto)]

mod facts;
mod fields;
mod from_json;
mod ids;
mod meanings;
mod places;
mod rows_error;
mod sources;

pub use facts::{FactRows, read_rows};
pub use meanings::{Definition, MemberKey, Method, NameKey, PrintedKey};
pub use places::PlaceRow;
pub use rows_error::RowsError;
pub use sources::{ExpansionKindRow, ExpansionRow, ExpansionToken, FileRow};
