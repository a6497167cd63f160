//! A font that is held.
ghost use Rattle.std.specs.Prelude.{◌≡◌, IfErr, IfOk, Ok};
ghost use Rattle.aat_face.specs.Faces.{face_of};
ghost use Rattle.aat_records.specs.Asked.{RefusesFile};

use crate::failure::Failure;
use aat_bytes::ReadError;
use aat_face::Face;
use aat_typesetter::TypesetterMemory;
use std::alloc::Global;

/// A font of bytes that outlive it, and memory in which texts are typeset.
#[derive(Drop)]
pub struct Held {
    /// The font.
    pub face: Face<'static>,
    /// The memory.
    pub memory: TypesetterMemory,
}

impl Held {
    /// Lets go of what is held.
    fn let_go(self) {
        let Held { face, memory } = self;
        face.let_go();
        memory.let_go();
    }
}

/// What is held in a box. Where memory is wanting, it goes.
fn boxed(alloc: Global, held: Held) -> Result<Box<Held>, Failure>
    ensures ok { IfOk result (λ b. b.value ≡ held) }
    ensures refused { IfErr result (λ failure. failure ≡ Failure.OutOfMemory) }
{
    match Box::new(alloc, held) {
        Ok(held) => Ok(held),
        Err(refused) => {
            refused.value.let_go();
            Err(Failure::OutOfMemory)
        }
    }
}

/// A font of bytes in a box.
pub fn read_held(alloc: Global, bytes: &'static [u8], index: u32) -> Result<Box<Held>, Failure>
    ensures ok { IfOk result (λ b. face_of bytes.now index ≡ Ok b.value.face) }
    ensures refused { IfErr result (RefusesFile (face_of bytes.now index)) }
{
    match Face::read(alloc, bytes, index) {
        Ok(face) => {
            let memory = TypesetterMemory::new(alloc);
            boxed(alloc, Held { face, memory })
        }
        Err(ReadError::Fault(_)) => Err(Failure::BadFont),
        Err(ReadError::OutOfMemory) => Err(Failure::OutOfMemory),
    }
}

/// Lets go of what is held, if something is.
pub fn let_go(held: Option<Box<Held>>) {
    if let Some(held) = held {
        Box::into_inner(held).let_go();
    }
}
