//! Values and members of a table that is made.

ghost use Rattle.std.specs.Prelude.{◌≡◌, ◌<◌, ◌^◌, ◌∷◌, ◌++◌, [], OnOk, map};
ghost use Rattle.toml.specs.Data.{array, string, table as table_data};
ghost use Rattle.toml.specs.View.{items_of, table_view, view};
ghost use Rattle.plan_file.specs.Tables.{dest_data, id_data, name_data, number_data, with_copy, with_member};

use srp_base::NoMemory;
use std::alloc::Global;
use toml::{Table, Value};
use toml_rules::value_at;

/// Puts a value at a key.
pub(crate) fn put(alloc: Global, table: &mut Table, key: &str, value: Value) -> Result<(), NoMemory>
    ensures { OnOk result (table_view table.new
        ≡ with_member key.now (view value) (table_view table.old)) }
{
    let key = String::from_str(alloc, key)?;
    drop(table.insert(key, value)?);
    Ok(())
}

/// Puts a word at a key.
pub(crate) fn put_word(
    alloc: Global,
    table: &mut Table,
    key: &str,
    word: &str,
) -> Result<(), NoMemory>
    ensures { OnOk result (table_view table.new
        ≡ with_member key.now (string word.now) (table_view table.old)) }
{
    let value = Value::string(alloc, word)?;
    put(alloc, table, key, value)
}

/// Puts a name at a key.
pub(crate) fn put_name(
    alloc: Global,
    table: &mut Table,
    key: &str,
    name: &[u8],
) -> Result<(), NoMemory>
    ensures { OnOk result (table_view table.new
        ≡ with_member key.now (name_data name.now) (table_view table.old)) }
{
    let name = String::from_utf8_lossy(alloc, name)?;
    put(alloc, table, key, Value::from(name))
}

/// Puts a number at a key.
pub(crate) fn put_number(
    alloc: Global,
    table: &mut Table,
    key: &str,
    number: u64,
) -> Result<(), NoMemory>
    requires { number < 2 ^ 63 }
    ensures { OnOk result (table_view table.new
        ≡ with_member key.now (number_data number) (table_view table.old)) }
{
    put(alloc, table, key, Value::from(number as i64))
}

/// Puts a StreamID or a BridgeID at a key.
pub(crate) fn put_id(alloc: Global, table: &mut Table, key: &str, id: u64) -> Result<(), NoMemory>
    ensures { OnOk result (table_view table.new
        ≡ with_member key.now (id_data id) (table_view table.old)) }
{
    let digits = hex::encode(alloc, id.to_be_bytes())?;
    put(alloc, table, key, Value::from(digits))
}

/// Puts an address at a key.
pub(crate) fn put_dest(
    alloc: Global,
    table: &mut Table,
    key: &str,
    dest: u64,
) -> Result<(), NoMemory>
    ensures { OnOk result (table_view table.new
        ≡ with_member key.now (dest_data dest) (table_view table.old)) }
{
    let octets = dest.to_be_bytes();
    let digits = hex::encode(alloc, &octets[2..])?;
    put(alloc, table, key, Value::from(digits))
}

/// Puts a table at the end of an array.
#[tactic(auto, using(std::proofs::lemmas::List::map_push))]
pub(crate) fn push_table(values: &mut Vec<Value>, table: Table) -> Result<(), NoMemory>
    ensures { OnOk result (map view values.new.items
        ≡ map view values.old.items ++ table_data (table_view table) ∷ []) }
{
    let value = Value::from(table);
    values.push(value)?;
    Ok(())
}

/// Puts an array at a key.
pub(crate) fn put_array(
    alloc: Global,
    table: &mut Table,
    key: &str,
    values: Vec<Value>,
) -> Result<(), NoMemory>
    ensures { OnOk result (table_view table.new
        ≡ with_member key.now (array (items_of (map view values.items))) (table_view table.old)) }
{
    put(alloc, table, key, Value::from(values))
}

/// Puts the value that another table has at a key, where it has one.
pub(crate) fn put_copy(
    alloc: Global,
    table: &mut Table,
    key: &str,
    from: &Table,
) -> Result<(), NoMemory>
    ensures { OnOk result (table_view table.new
        ≡ with_copy key.now (table_view from.now) (table_view table.old)) }
{
    match value_at(from, key) {
        Some(value) => put(alloc, table, key, value.clone()?),
        None => Ok(()),
    }
}
