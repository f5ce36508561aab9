//! How a text takes a name, over a disk of which all is told.

ghost use Rattle.std.specs.Prelude.{◌≡◌, [], Some};
ghost use Rattle.std.specs.Option.{option_map};

use dsa_outside::{Draft, replace};
use std::alloc::Global;
use std::io;

/// A draft of which all is told. So many of its steps succeed.
#[derive(Drop)]
struct Told {
    alloc: Global,
    text: Vec<u8>,
    has_rights: bool,
    is_synced: bool,
    is_beside: bool,
    named: Option<Vec<u8>>,
    steps: u8,
}

impl Told {
    fn step(&mut self) -> io::Result<()>
        ensures { self.new ≡ record self.old { steps = self.new.steps } }
    {
        if self.steps == 0 {
            return Err(io::ErrorKind::Other.into());
        }
        self.steps -= 1;
        Ok(())
    }
}

impl Draft for Told {
    ghost state = { λ s. Some (record {
      text = s.text.items;
      has_rights = s.has_rights;
      is_synced = s.is_synced;
      is_beside = s.is_beside;
      named = option_map (λ v. v.items) s.named;
    }) };

    fn take_rights(&mut self) -> io::Result<()> {
        self.step()?;
        self.has_rights = true;
        Ok(())
    }

    fn write(&mut self, bytes: &[u8]) -> io::Result<()> {
        self.is_synced = false;
        self.step()?;
        self.text.extend_from_slice(bytes)?;
        Ok(())
    }

    fn sync(&mut self) -> io::Result<()> {
        self.step()?;
        self.is_synced = true;
        Ok(())
    }

    fn rename(&mut self) -> io::Result<()> {
        self.step()?;
        self.named = Some(Vec::from_slice(self.alloc, self.text.as_slice())?);
        self.is_beside = false;
        Ok(())
    }

    fn remove(&mut self) {
        self.is_beside = false;
    }
}

fn begun(alloc: Global, named: Option<Vec<u8>>, steps: u8) -> Told
    ensures { result.text.items ≡ [] }
{
    Told {
        alloc,
        text: Vec::new(alloc),
        has_rights: false,
        is_synced: false,
        is_beside: true,
        named,
        steps,
    }
}

/// Whether the name holds these bytes.
fn holds(named: &Option<Vec<u8>>, want: &[u8]) -> bool {
    match named {
        Some(held) => held.as_slice() == want,
        None => false,
    }
}

/// Whether the name has the new text where the four steps succeed, and else the old one, and
/// nothing is beside it.
fn is_replaced(alloc: Global, named: Option<Vec<u8>>, steps: u8) -> bool {
    let mut draft = begun(alloc, named, steps);
    let whole = replace(&mut draft, b"new").is_ok();
    let want = if whole {
        b"new".as_slice()
    } else {
        b"old".as_slice()
    };
    whole == (steps == 4) && !draft.is_beside && holds(&draft.named, want)
}

#[test]
fn a_step_that_fails_leaves_the_old_text(rt: HostRuntime) {
    for steps in 0..5 {
        let old = Vec::from_slice(rt.alloc(), b"old").expect(&rt, "memory");
        assert!(rt;
            is_replaced(rt.alloc(), Some(old), steps),
            "with {steps} steps"
        );
    }
}
