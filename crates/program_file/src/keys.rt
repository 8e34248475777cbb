// The keys of a table of a program file, each read by its type.

ghost use Rattle.std.specs.Prelude.{◌≡◌, ℕ, ℤ, Bool, List, Option, IfOk, IfErr, IsTrue, ◌↔◌, All, map, option_map};
ghost use Rattle.toml.specs.Data.{Data, Members, get_member, string, integer, array};
ghost use Rattle.toml.specs.View.{view, table_view, items_of};
ghost use Rattle.program_file.specs.Keys.{HasOnly, HasKey, HasItems, HasTable, HasTables, HasNames, HasTexts, IsTable, HasResources, HasEvents, HasText, HasInteger, HasNumber, HasFlag, AreIntegers, lent_members};
ghost use Rattle.program_file.specs.Rounds.{IsNumber};
ghost use Rattle.parsing.specs.Reads.{Reads};
ghost use Rattle.program_file.specs.PlaceFault.{IsNoText, NoneIs};
ghost use Rattle.tokens.specs.Name.{IsName};
ghost use Rattle.program_file.specs.Among.{IsAmong};
ghost use Rattle.std.specs.List.{AllByRecursion};
ghost use Rattle.kinds.specs.declared.res.Res.{Res as ResValue};
ghost use Rattle.kinds.specs.declared.res.Event.{Event as EventValue};

use crate::place_fault::PlaceFault;
use kinds::{Event, Res};
use std::alloc::Global;
use tokens::name::is_name;
use toml::{Table, Value};

/// Refuses a table that has another key than these.
pub fn refuse_unknown(table: &Table, known: &[&str]) -> Result<(), PlaceFault>
    ensures ok { IfOk result (λ _. HasOnly (map (λ name. name.now) known.now) (table_view
        table.now)) }
    ensures refused { IfErr result (λ fault. (fault ≡ PlaceFault.Value)
        × (HasOnly (map (λ name. name.now) known.now) (table_view table.now) → ⊥)) }
{
    if has_only(table, known) {
        Ok(())
    } else {
        Err(PlaceFault::Value)
    }
}

/// Refuses a table without this key.
pub fn refuse_missing(table: &Table, key: &str) -> Result<(), PlaceFault>
    ensures ok { IfOk result (λ _. HasKey key.now (table_view table.now)) }
    ensures refused { IfErr result (λ fault. (fault ≡ PlaceFault.Value)
        × (HasKey key.now (table_view table.now) → ⊥)) }
{
    match value_at(table, key) {
        Some(_) => Ok(()),
        None => Err(PlaceFault::Value),
    }
}

// Whether each key of a table is one of these.
fn has_only(table: &Table, known: &[&str]) -> bool
    ensures { IsTrue result ↔ HasOnly (map (λ name. name.now) known.now) (table_view table.now) }
{
    table.keys().all(|key| is_among(key.as_str(), known))
}

// Whether a text is one of these.
fn is_among(text: &str, known: &[&str]) -> bool
    ensures { IsTrue result ↔ IsAmong text.now known.now }
{
    known.iter().any(|name| *name == text)
}

/// The value at a key.
#[tactic(auto, using(toml::proofs::Views::table_get))]
pub fn value_at<'a>(table: &'a Table, key: &str) -> Option<&'a Value>
    ensures { option_map (λ value. view value.now) result
        ≡ get_member key.now (table_view table.now) }
{
    table.get(key)
}

/// The array at a key. One that isn't there is empty.
pub fn items_at<'a>(table: &'a Table, key: &str) -> Result<&'a [Value], PlaceFault>
    ensures ok { IfOk result (λ items. HasItems key.now (map view items.now) (table_view
        table.now)) }
    ensures err { IfErr result (λ fault. fault ≡ PlaceFault.Value) }
    ensures refused { IfErr result (NoneIs (λ (values : List Data). HasItems key.now values
        (table_view table.now))) }
{
    match value_at(table, key) {
        None => Ok(&[]),
        Some(value) => match value.as_array() {
            Some(items) => Ok(items.as_slice()),
            None => Err(PlaceFault::Value),
        },
    }
}

/// The table at a key, if the key has one.
pub fn table_at<'a>(table: &'a Table, key: &str) -> Result<Option<&'a Table>, PlaceFault>
    ensures ok { IfOk result (λ inner. HasTable key.now (lent_members inner) (table_view
        table.now)) }
    ensures err { IfErr result (λ fault. fault ≡ PlaceFault.Value) }
    ensures refused { IfErr result (NoneIs (λ (members : Members). HasTable key.now members
        (table_view table.now))) }
{
    match value_at(table, key) {
        None => Ok(None),
        Some(value) => Ok(Some(table_of(value)?)),
    }
}

/// The tables of the array at a key. Another value there is `Value`.
pub fn tables_at<'a>(
    alloc: Global,
    table: &'a Table,
    key: &str,
) -> Result<Vec<&'a Table>, PlaceFault>
    ensures ok { IfOk result (λ tables. HasTables key.now
        (map (λ inner. table_view inner.now) tables.items) (table_view table.now)) }
    ensures err { IfErr result IsNoText }
    ensures refused { IfErr result (NoneIs (λ (tables : List Members). HasTables key.now tables
        (table_view table.now))) }
{
    let mut tables = Vec::new(alloc);
    for item in items_at(table, key)? {
        tables.push(table_of(item)?)?;
    }
    Ok(tables)
}

// The table that a value is.
fn table_of(value: &Value) -> Result<&Table, PlaceFault>
    ensures ok { IfOk result (λ inner. IsTable (table_view inner.now) (view value.now)) }
    ensures err { IfErr result (λ fault. fault ≡ PlaceFault.Value) }
    ensures refused { IfErr result (NoneIs (λ (members : Members). IsTable members (view
        value.now))) }
{
    value.as_table().ok_or(PlaceFault::Value)
}

/// The texts of the array at a key. Another value there is `Value`.
pub fn texts_at<'a>(alloc: Global, table: &'a Table, key: &str) -> Result<Vec<&'a str>, PlaceFault>
    ensures ok { IfOk result (λ texts. HasNames key.now texts.items (table_view table.now)) }
    ensures err { IfErr result IsNoText }
    ensures refused { IfErr result (NoneIs (λ (texts : List (List ℕ)). HasTexts key.now texts
        (table_view table.now))) }
{
    let mut texts = Vec::new(alloc);
    for item in items_at(table, key)? {
        texts.push(text_of(item)?)?;
    }
    Ok(texts)
}

// The text that a value is.
fn text_of(value: &Value) -> Result<&str, PlaceFault>
    ensures ok { IfOk result (λ text. view value.now ≡ string text.now) }
    ensures err { IfErr result (λ fault. fault ≡ PlaceFault.Value) }
    ensures refused { IfErr result (NoneIs (λ (text : List ℕ). view value.now ≡ string text)) }
{
    value.as_str().ok_or(PlaceFault::Value)
}

/// The names of the array at a key.
pub fn names_at<'a>(alloc: Global, table: &'a Table, key: &str) -> Result<Vec<&'a str>, PlaceFault>
    ensures names { IfOk result (λ names. All (λ name. IsName name.now) names.items) }
    ensures said { IfOk result (λ names. HasNames key.now names.items (table_view table.now)) }
    ensures err { IfErr result IsNoText }
    ensures refused { IfErr result (NoneIs (λ (texts : List (List ℕ)). HasTexts key.now texts
        (table_view table.now)
        × AllByRecursion IsName texts)) }
{
    let names = texts_at(alloc, table, key)?;
    if are_names(names.as_slice()) {
        Ok(names)
    } else {
        Err(PlaceFault::Value)
    }
}

// Whether each text is a name.
fn are_names(texts: &[&str]) -> bool
    ensures { IsTrue result ↔ All (λ text. IsName text.now) texts.now }
{
    texts.iter().all(|text| is_name(text))
}

/// The resources of the array at a key, by their names.
pub fn resources_at(alloc: Global, table: &Table, key: &str) -> Result<Vec<Res>, PlaceFault>
    ensures ok { IfOk result (λ resources. HasResources key.now resources.items (table_view
        table.now)) }
    ensures err { IfErr result IsNoText }
    ensures refused { IfErr result (NoneIs (λ (resources : List ResValue). HasResources key.now
        resources (table_view table.now))) }
{
    let mut resources = Vec::new(alloc);
    for name in texts_at(alloc, table, key)? {
        resources.push(Res::named(name).ok_or(PlaceFault::Value)?)?;
    }
    Ok(resources)
}

/// The event kinds of the array at a key, by their names.
pub fn events_at(alloc: Global, table: &Table, key: &str) -> Result<Vec<Event>, PlaceFault>
    ensures ok { IfOk result (λ events. HasEvents key.now events.items (table_view table.now)) }
    ensures err { IfErr result IsNoText }
    ensures refused { IfErr result (NoneIs (λ (events : List EventValue). HasEvents key.now events
        (table_view table.now))) }
{
    let mut events = Vec::new(alloc);
    for name in texts_at(alloc, table, key)? {
        events.push(Event::named(name).ok_or(PlaceFault::Value)?)?;
    }
    Ok(events)
}

/// The name at a key that must not be missing.
pub fn name_at<'a>(table: &'a Table, key: &str) -> Result<&'a str, PlaceFault>
    ensures name { IfOk result (λ name. IsName name.now) }
    ensures said { IfOk result (λ name. HasText key.now name.now (table_view table.now)) }
    ensures err { IfErr result (λ fault. fault ≡ PlaceFault.Value) }
    ensures refused { IfErr result (NoneIs (λ (text : List ℕ). HasText key.now text (table_view
        table.now)
        × IsName text)) }
{
    let name = match value_at(table, key) {
        Some(value) => text_of(value)?,
        None => return Err(PlaceFault::Value),
    };
    if is_name(name) {
        Ok(name)
    } else {
        Err(PlaceFault::Value)
    }
}

/// The integers of an array. Another value is `Value`.
pub fn integers_of(alloc: Global, value: &Value) -> Result<Vec<i64>, PlaceFault>
    ensures ok { IfOk result (λ integers. AreIntegers integers.items (view value.now)) }
    ensures err { IfErr result IsNoText }
    ensures refused { IfErr result (NoneIs (λ (integers : List ℤ). AreIntegers integers (view
        value.now))) }
{
    let mut integers = Vec::new(alloc);
    for item in array_of(value)? {
        integers.push(integer_of(item)?)?;
    }
    Ok(integers)
}

// The values of the array that a value is.
fn array_of(value: &Value) -> Result<&[Value], PlaceFault>
    ensures ok { IfOk result (λ items. view value.now ≡ array (items_of (map view items.now))) }
    ensures err { IfErr result (λ fault. fault ≡ PlaceFault.Value) }
    ensures refused { IfErr result (NoneIs (λ (values : List Data). view value.now
        ≡ array (items_of values))) }
{
    match value.as_array() {
        Some(items) => Ok(items.as_slice()),
        None => Err(PlaceFault::Value),
    }
}

// The integer that a value is.
fn integer_of(value: &Value) -> Result<i64, PlaceFault>
    ensures ok { IfOk result (λ n. view value.now ≡ integer n) }
    ensures err { IfErr result (λ fault. fault ≡ PlaceFault.Value) }
    ensures refused { IfErr result (NoneIs (λ (n : ℤ). view value.now ≡ integer n)) }
{
    value.as_integer().ok_or(PlaceFault::Value)
}

/// The integer at a key. One that isn't there is 0.
pub fn integer_at(table: &Table, key: &str) -> Result<i64, PlaceFault>
    ensures ok { IfOk result (λ n. HasInteger key.now n (table_view table.now)) }
    ensures err { IfErr result (λ fault. fault ≡ PlaceFault.Value) }
    ensures refused { IfErr result (NoneIs (λ (n : ℤ). HasInteger key.now n (table_view
        table.now))) }
{
    match value_at(table, key) {
        None => Ok(0),
        Some(value) => value.as_integer().ok_or(PlaceFault::Value),
    }
}

/// The truth value at a key. One that isn't there is `false`.
pub fn flag_at(table: &Table, key: &str) -> Result<bool, PlaceFault>
    ensures ok { IfOk result (λ flag. HasFlag key.now flag (table_view table.now)) }
    ensures err { IfErr result (λ fault. fault ≡ PlaceFault.Value) }
    ensures refused { IfErr result (NoneIs (λ (flag : Bool). HasFlag key.now flag (table_view
        table.now))) }
{
    match value_at(table, key) {
        None => Ok(false),
        Some(value) => value.as_bool().ok_or(PlaceFault::Value),
    }
}

/// The number of 32 bits that a value is.
pub fn number_of(value: &Value) -> Option<u32>
    ensures { Reads IsNumber (view value.now) result }
{
    u32::try_from(value.as_integer()?).ok()
}

/// The number of 32 bits at a key, if there is a value. Another value there is `Value`.
pub fn number_at(table: &Table, key: &str) -> Result<Option<u32>, PlaceFault>
    ensures ok { IfOk result (λ number. HasNumber key.now number (table_view table.now)) }
    ensures refused { IfErr result (λ fault. (fault ≡ PlaceFault.Value)
        × ((number : Option ℕ) → HasNumber key.now number (table_view table.now) → ⊥)) }
{
    match value_at(table, key) {
        None => Ok(None),
        Some(value) => match number_of(value) {
            Some(number) => Ok(Some(number)),
            None => Err(PlaceFault::Value),
        },
    }
}
