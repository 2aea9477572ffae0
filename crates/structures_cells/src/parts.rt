//! Clones of the parts of cells.
ghost use Rattle.std.specs.Prelude.{◌≡◌, IfOk, map};
ghost use Rattle.structures_cells.specs.Shape.{text_of, element_of, elements_of};

use crate::cell::ElementIds;
use std::alloc::AllocError;

pub(crate) fn copy_texts(texts: &Vec<String>) -> Result<Vec<String>, AllocError>
    ensures { IfOk result (λ v. map text_of v.items ≡ map text_of texts.now.items) }
{
    let mut copies = Vec::with_capacity(*texts.allocator(), texts.len())?;
    for text in texts {
        copies.push(text.clone()?)?;
    }
    Ok(copies)
}

pub(crate) fn copy_element(id: &Option<String>) -> Result<Option<String>, AllocError>
    ensures { IfOk result (λ e. element_of e ≡ element_of id.now) }
{
    match id {
        None => Ok(None),
        Some(text) => Ok(Some(text.clone()?)),
    }
}

pub(crate) fn copy_elements(ids: &Option<ElementIds>) -> Result<Option<ElementIds>, AllocError>
    ensures { IfOk result (λ e. elements_of e ≡ elements_of ids.now) }
{
    match ids {
        None => Ok(None),
        Some(ids) => Ok(Some(ElementIds {
            own: ids.own.clone()?,
            start: ids.start.clone()?,
            end: ids.end.clone()?,
        })),
    }
}
