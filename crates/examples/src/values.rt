//! A caller of values.
ghost use Rattle.std.specs.Prelude.{IfOk};
ghost use Rattle.packstream.specs.Good.{IsGood};

use messages::MsgFault;
use packstream::{Packed, Value};
use std::alloc::Global;

/// A list of two byte strings of so many bytes each.
pub fn two_of(alloc: Global, count: usize) -> Result<Packed, MsgFault>
    ensures { IfOk result (λ p. IsGood p) }
{
    let bytes = vec![in alloc; 9u8; count]?;
    let copy = bytes.clone()?;
    let both = vec![in alloc; Value::Bytes(bytes), Value::Bytes(copy)]?;
    Ok(Packed::new(Value::List(both))?)
}
