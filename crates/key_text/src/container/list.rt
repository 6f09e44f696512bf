//! The private list of a container.

ghost use Rattle.std.specs.Prelude.{[], ◌∷◌};
ghost use Rattle.ssh_wire.specs.Reading.{Gives, Lends};
ghost use Rattle.ssh_wire.specs.Rows.{table_at};
ghost use Rattle.ssh_key.specs.Kind.{type_name};
ghost use Rattle.key_text.specs.Container.{beginning};
ghost use Rattle.key_text.specs.ContainerReading.{list_at};
ghost use Rattle.key_text.specs.declared.private_fault.PrivateFault.TheVariants.{Wire};

use crate::container::padding::is_padding;
use crate::container::secrets::read_secrets;
use crate::private_fault::PrivateFault;
use ssh_key::PublicKey;
use ssh_wire::Cursor;

/// The comment of the private list of this key.
#[tactic(auto, unfolding(crate::specs::ContainerReading::list_at))]
pub fn read_list<'a>(key: &PublicKey, list: &'a [u8]) -> Result<&'a [u8], PrivateFault>
    ensures { Lends result (list_at key.now list.now) }
{
    let mut cursor = Cursor::new(list);
    let _check = read_beginning(key, &mut cursor)?;
    let same = read_secrets(key, &mut cursor)?;
    let comment = cursor.string()?;
    if !same {
        return Err(PrivateFault::PublicDiffers);
    }
    if !is_padding(cursor.rest()) {
        return Err(PrivateFault::Padding);
    }
    Ok(comment)
}

// The check words, which must be equal, and the type name, which must be that of the key.
#[tactic(auto, unfolding(ssh_wire::specs::Rows::table_at))]
fn read_beginning(key: &PublicKey, cursor: &mut Cursor) -> Result<u32, PrivateFault>
    ensures { Gives (λ check. (check ∷ []) ∷ (check ∷ []) ∷ type_name key.now.kind ∷ []) result
        cursor.new (table_at Wire (beginning key.now.kind) [] cursor.old) }
{
    let check = cursor.u32()?;
    let again = cursor.u32()?;
    if check != again {
        return Err(PrivateFault::Check);
    }
    let name = cursor.string()?;
    if name != key.kind().name().as_bytes() {
        return Err(PrivateFault::PublicDiffers);
    }
    Ok(check)
}
