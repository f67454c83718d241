ghost use Rattle.std.specs.Prelude.{◌≡◌, ◌++◌, List, ℕ, Ok, None};
ghost use Rattle.link_fields.specs.Field.{Gives};
ghost use Rattle.link_fields.specs.Origins as spec;

use crate::fault::ReadError;
use crate::origins::read_origin;
use origin_core::Origin;
use std::alloc::{AllocError, Global};
use std::marker::Model;

/// The origin that was read last, and its bytes. A field that begins with the same bytes is the same origin: it is
/// copied then, and its host isn't read as a URL's again.
///
/// Contracts see it as the bytes and the origin.
#[derive(Drop)]
pub struct LastOrigin {
    bytes: Vec<u8>,
    value: Option<Origin>,
}

impl Model for LastOrigin {
    ghost use Rattle.link_fields.specs.Last.{Last, IsReadAs};
    ghost use Rattle.link_fields.specs.Origins.{origin};
    ghost use Rattle.origin_core.specs.declared.origin.Origin.{Origin};

    ghost Value = { Last Origin };

    ghost view = { λ l. record { bytes = l.bytes.items; value = l.value } };

    ghost invariant = { λ l. IsReadAs origin l.bytes.items l.value };
}

impl LastOrigin {
    /// No origin was read yet. It takes no memory.
    pub fn new(alloc: Global) -> LastOrigin {
        LastOrigin {
            bytes: Vec::new(alloc),
            value: None,
        }
    }

    /// Reads an origin, as [`read_origin`] does.
    pub fn read<'a>(
        &mut self,
        alloc: Global,
        bytes: &'a [u8],
    ) -> Result<(Origin, &'a [u8]), ReadError>
        ensures { Gives (λ x. (x.0, x.1.now)) result (spec.origin.read bytes.entry.now) }
    {
        if let Some(origin) = &self.value {
            if let Some(rest) = bytes.strip_prefix(self.bytes.as_slice()) {
                return Ok((origin.clone()?, rest));
            }
        }
        let (origin, rest) = read_origin(alloc, bytes)?;
        let (front, _) = bytes.split_at(bytes.len() - rest.len());
        self.keep(front, &origin)?;
        Ok((origin, rest))
    }

    fn keep(&mut self, bytes: &[u8], origin: &Origin) -> Result<(), AllocError>
        requires { (rest : List ℕ) → spec.origin.read (bytes.now ++ rest) ≡ Ok (origin.now, rest) }
    {
        self.value = None;
        self.bytes.clear();
        self.bytes.extend_from_slice(bytes)?;
        self.value = Some(origin.clone()?);
        Ok(())
    }
}
