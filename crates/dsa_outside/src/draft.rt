//! How a text takes a name: whole, or not at all.

ghost use Rattle.std.specs.Prelude.{◌≡◌, ◌++◌, ℕ, [], Option, Some, false, take, IfSome, OnOk, OnErr};
ghost use Rattle.std.specs.Option.{option_map};
ghost use Rattle.dsa_outside.specs.Drafts.{DraftState, IsReady, with_rights, written, synced, renamed, removed, name_of};

use std::io;

/// A file that was begun beside the name that it is to take, and the steps by which it does. What
/// the name holds changes with `rename` alone.
pub trait Draft {
    /// What stands on the disk, where it is told.
    ghost state: { Self → Option DraftState };

    /// Gives it the permissions of the file that it is to replace, where there is one.
    fn take_rights(&mut self) -> io::Result<()>
        ensures done { OnOk result (state self.new ≡ option_map with_rights (state self.old)) }
        ensures unchanged { OnErr result (state self.new ≡ state self.old) };

    /// Writes all the bytes. After an error some of the first are written, or none.
    fn write(&mut self, bytes: &[u8]) -> io::Result<()>
        ensures done { OnOk result
            (state self.new ≡ option_map (written bytes.now) (state self.old)) }
        ensures prefix { OnErr result ((count : ℕ) ×
            (state self.new ≡ option_map (written (take count bytes.now)) (state self.old))) };

    /// Waits until the disk has all of it.
    fn sync(&mut self) -> io::Result<()>
        ensures done { OnOk result (state self.new ≡ option_map synced (state self.old)) }
        ensures unchanged { OnErr result (state self.new ≡ state self.old) };

    /// Gives it the name, in the place of what was there.
    fn rename(&mut self) -> io::Result<()>
        requires { IfSome (state self.old) IsReady }
        ensures done { OnOk result (state self.new ≡ option_map renamed (state self.old)) }
        ensures unchanged { OnErr result (state self.new ≡ state self.old) };

    /// Takes it away, unless the system refuses to.
    fn remove(&mut self)
        ensures done { state self.new ≡ option_map removed (state self.old) };
}

/// Has a draft in which nothing is written take its name with these bytes. After an error the name
/// holds what it held. In both cases the draft was renamed, or the system was asked to take it
/// away.
pub fn replace<D: Draft>(draft: &mut D, bytes: &[u8]) -> io::Result<()>
    requires { IfSome (D.state draft.old) (λ s. s.text ≡ []) }
    ensures written { OnOk result
        (name_of (D.state draft.new) ≡ option_map (λ _. Some bytes.now) (D.state draft.old)) }
    ensures kept { OnErr result (name_of (D.state draft.new) ≡ name_of (D.state draft.old)) }
    ensures gone { IfSome (D.state draft.new) (λ s. s.is_beside ≡ false) }
{
    let taken = take_name(draft, bytes);
    if taken.is_err() {
        draft.remove();
    }
    taken
}

fn take_name<D: Draft>(draft: &mut D, bytes: &[u8]) -> io::Result<()>
    ensures written { OnOk result (name_of (D.state draft.new)
        ≡ option_map (λ s. Some (s.text ++ bytes.now)) (D.state draft.old)) }
    ensures kept { OnErr result (name_of (D.state draft.new) ≡ name_of (D.state draft.old)) }
    ensures gone { OnOk result (IfSome (D.state draft.new) (λ s. s.is_beside ≡ false)) }
{
    draft.take_rights()?;
    draft.write(bytes)?;
    draft.sync()?;
    draft.rename()
}
