//! A text that was read: all that binding it at a place needs, worked out once.

ghost use Rattle.std.specs.Prelude.{◌≡◌, [], ◌∷◌, length, IfOk};
ghost use Rattle.gen_text.specs.Pieces.{exprs_of, top};
ghost use Rattle.cond_lang.specs.Form.{names_in, all_names, seated, seats, seats_of};
ghost use Rattle.cond_lang.specs.Meaning.{tree_of};
ghost use Rattle.cond_lang.specs.Places.{size};
ghost use Rattle.cond_lang.specs.Reader.{read_as};
ghost use Rattle.cond_lang.specs.Reading.{ReadsForm};
ghost use Rattle.cond_lang.specs.Single.{seats_prop};

use crate::distinct::no_names;
use crate::form::Form;
use crate::spelled::parts_of;
use gen_text::Piece;
use std::alloc::Global;
use std::sync::Arc;
use text_core::{NoMemory, Text};

/// A text that was read as a condition: its bytes, and the offset of each token in bytes from 0; the names that it reads, each once, in
/// the order in which they first come; and its form over these names, which all that is bound of it shares.
#[derive(Drop)]
pub struct CondText {
    pub(crate) bytes: Text,
    pub(crate) offsets: Vec<u32>,
    pub(crate) names: Vec<Text>,
    pub(crate) form: Arc<Form>,
    ghost named: { names.items ≡ names_in [] (tree_of (read_as (length offsets.items) bytes)) },
    ghost formed: { seats form.value.parts.items ≡ seated [] (read_as (length offsets.items) bytes) ∷ [] } by { seats_prop
        (seats form.value.parts.items) (seated [] (read_as (length offsets.items) bytes) ∷ []) },
    ghost sized: { length offsets.items ≡ size (seated [] (read_as (length offsets.items) bytes)) },
}

/// The form of an expression's pieces, and their names.
fn formed(alloc: Global, pieces: &[Piece<'_>]) -> Result<(Arc<Form>, Vec<Text>), NoMemory>
    ensures form { IfOk result (λ made. seats made.0.value.parts.items ≡ seats_of (exprs_of pieces.now)) }
    ensures names { IfOk result (λ made. made.1.items ≡ all_names (exprs_of pieces.now)) }
{
    let mut names = no_names(alloc);
    let parts = parts_of(alloc, &mut names, pieces)?;
    let form = Arc::new(alloc, Form { parts })?;
    Ok((form, names.list))
}

/// A text whose tokens have these offsets and are read as these pieces, with its names and its form.
pub(crate) fn cond_text(
    alloc: Global,
    text: &[u8],
    pieces: &[Piece<'_>],
    offsets: Vec<u32>,
) -> Result<CondText, NoMemory>
    requires one { exprs_of pieces.now ≡ top (exprs_of pieces.now) ∷ [] }
    requires reads { ReadsForm text.now (top (exprs_of pieces.now)) offsets.items }
    ensures bytes { IfOk result (λ made. made.bytes ≡ text.now) }
    ensures offsets { IfOk result (λ made. made.offsets.items ≡ offsets.items) }
{
    let (form, names) = formed(alloc, pieces)?;
    let bytes = Text::new(alloc, text)?;
    Ok(CondText {
        bytes,
        offsets,
        names,
        form,
    })
}
