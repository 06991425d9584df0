//! The records below a derivation.

ghost use Rattle.std.specs.Prelude.{◌≡◌, ◌≤◌, ◌||◌, ℕ, List, [], ◌++◌, MatchResult, filter, drop, length, bytes_eq};
ghost use Rattle.std.specs.List.{list_any};
ghost use Rattle.model.specs.References.{is_input_class};
ghost use Rattle.model.specs.declared.refusal.Refusal.TheVariants.{Memory};
ghost use Rattle.outputs.specs.Below.{AreBelow};
ghost use Rattle.outputs.specs.Reaching.{AreReached, AreSame, IsReached, IsStep, chosen, has_class, is_label_for, is_named, is_named_in, is_news, is_record_named};

use aterm::Derivation;
use classes::{Known, input_classes};
use indexmap::IndexSet;
use model::Refusal;
use path_sets::set_of;
use realise::{Desk, RecordsOf};
use records::{Label, Record};
use std::alloc::Global;
use storepath::StorePath;

/// The records that were reached so far, those of the last step behind the `from` others, and the
/// paths and classes that labels of the others named, but for the classes of inputs.
struct Reached {
    records: Vec<Record>,
    from: usize,
    seen: IndexSet<(StorePath, StorePath)>,
}

impl Drop for Reached {
    fn drop(self) {
        let Reached {
            records: _,
            from: _,
            seen: _,
        } = self;
    }
}

impl Reached {
    // The records of the last step.
    fn fresh(&self) -> &[Record]
        requires { self.now.from ≤ length self.now.records.items }
        ensures { result.now ≡ drop self.now.from self.now.records.items }
    {
        &self.records[self.from..]
    }

    // All records.
    fn into_records(self) -> Vec<Record>
        ensures { result.items ≡ self.records.items }
    {
        let Reached {
            records,
            from: _,
            seen: _,
        } = self;
        records
    }
}

// Adds the records of a group.
fn push_group(records: &mut Vec<Record>, group: RecordsOf) -> Result<(), Refusal>
    ensures { MatchResult result
        (λ _. records.new.items ≡ records.old.items ++ group.entry)
        (λ e. e ≡ Memory) }
{
    for record in group {
        records.push(record.clone()?)?;
    }
    Ok(())
}

// Whether a record is named.
fn is_named(named: &IndexSet<(StorePath, StorePath)>, one: &Record) -> Result<bool, Refusal>
    ensures { MatchResult result
        (λ b. b ≡ is_record_named named.now.keys one.now)
        (λ e. e ≡ Memory) }
{
    let pair = (one.path().clone()?, one.class().path().clone()?);
    Ok(named.contains(&pair))
}

// Adds the records of a group that are named.
fn push_named(
    records: &mut Vec<Record>,
    named: &IndexSet<(StorePath, StorePath)>,
    group: RecordsOf,
) -> Result<(), Refusal>
    ensures { MatchResult result
        (λ _. records.new.items ≡ records.old.items
        ++ filter (is_record_named named.now.keys) group.entry)
        (λ e. e ≡ Memory) }
{
    for record in group {
        if is_named(named, record)? {
            records.push(record.clone()?)?;
        }
    }
    Ok(())
}

// The records of these classes. No others are looked at.
fn records_of(
    alloc: Global,
    desk: &Desk,
    classes: &IndexSet<StorePath>,
) -> Result<Vec<Record>, Refusal>
    ensures { MatchResult result
        (λ found. AreSame found.items
        (chosen (λ class path. has_class classes.now.keys class) desk.now.records))
        (λ e. e ≡ Memory) }
{
    let mut found = Vec::new(alloc);
    for class in classes.as_slice() {
        push_group(&mut found, desk.records_of(class))?;
    }
    Ok(found)
}

// The classes of paths that are named.
fn classes_of(
    alloc: Global,
    named: &IndexSet<(StorePath, StorePath)>,
) -> Result<IndexSet<StorePath>, Refusal>
    ensures { MatchResult result
        (λ classes. (class : List ℕ) → has_class classes.keys class
        ≡ list_any (λ pair. bytes_eq class pair.1) named.now.keys)
        (λ e. e ≡ Memory) }
{
    let mut classes = IndexSet::new(alloc);
    for pair in named.as_slice() {
        let _is_new = classes.insert(pair.1.clone()?)?;
    }
    Ok(classes)
}

// The records that are named. Only those of their classes are looked at.
fn records_named(
    alloc: Global,
    desk: &Desk,
    named: &IndexSet<(StorePath, StorePath)>,
) -> Result<Vec<Record>, Refusal>
    ensures { MatchResult result
        (λ found. AreSame found.items
        (chosen (λ class path. is_named named.now.keys path class) desk.now.records))
        (λ e. e ≡ Memory) }
{
    let classes = classes_of(alloc, named)?;
    let mut found = Vec::new(alloc);
    for class in classes.as_slice() {
        push_named(&mut found, named, desk.records_of(class))?;
    }
    Ok(found)
}

// Adds the path and the class of a label that has a class, unless it is one of these, or they were
// seen.
fn add_label(
    named: &mut IndexSet<(StorePath, StorePath)>,
    inputs: &IndexSet<StorePath>,
    seen: &IndexSet<(StorePath, StorePath)>,
    label: &Label,
) -> Result<(), Refusal>
    ensures { MatchResult result
        (λ _. (path class : List ℕ) → is_named named.new.keys path class
        ≡ (is_named named.old.keys path class
        || is_news inputs.now.keys seen.now.keys class path label.now))
        (λ e. e ≡ Memory) }
{
    let Some(class) = label.class() else {
        return Ok(());
    };
    if inputs.contains(class.path()) {
        return Ok(());
    }
    let pair = (label.path().clone()?, class.path().clone()?);
    if !seen.contains(&pair) {
        let _is_new = named.insert(pair)?;
    }
    Ok(())
}

// Adds those of labels.
fn add_labels(
    named: &mut IndexSet<(StorePath, StorePath)>,
    inputs: &IndexSet<StorePath>,
    seen: &IndexSet<(StorePath, StorePath)>,
    labels: &[Label],
) -> Result<(), Refusal>
    ensures { MatchResult result
        (λ _. (path class : List ℕ) → is_named named.new.keys path class
        ≡ (is_named named.old.keys path class
        || list_any (is_news inputs.now.keys seen.now.keys class path) labels.now))
        (λ e. e ≡ Memory) }
{
    for label in labels {
        add_label(named, inputs, seen, label)?;
    }
    Ok(())
}

// The paths and classes that labels of these records name, and that were not seen before.
fn named_by(
    alloc: Global,
    inputs: &IndexSet<StorePath>,
    seen: &IndexSet<(StorePath, StorePath)>,
    fresh: &[Record],
) -> Result<IndexSet<(StorePath, StorePath)>, Refusal>
    ensures { MatchResult result
        (λ named. (path class : List ℕ) → is_named named.keys path class
        ≡ list_any (λ r. list_any (is_news inputs.now.keys seen.now.keys class path) r.labels)
        fresh.now)
        (λ e. e ≡ Memory) }
{
    let mut named = IndexSet::new(alloc);
    for record in fresh {
        add_labels(&mut named, inputs, seen, record.labels())?;
    }
    Ok(named)
}

// Adds pairs to others.
fn add_pairs(
    seen: &mut IndexSet<(StorePath, StorePath)>,
    named: &IndexSet<(StorePath, StorePath)>,
) -> Result<(), Refusal>
    ensures { MatchResult result
        (λ _. (path class : List ℕ) → is_named seen.new.keys path class
        ≡ (is_named seen.old.keys path class || is_named named.now.keys path class))
        (λ e. e ≡ Memory) }
{
    for pair in named.as_slice() {
        let copy = (pair.0.clone()?, pair.1.clone()?);
        let _is_new = seen.insert(copy)?;
    }
    Ok(())
}

// The classes of the inputs of a derivation.
fn inputs_of(
    alloc: Global,
    known: &Known,
    derivation: &Derivation,
) -> Result<IndexSet<StorePath>, Refusal>
    ensures { MatchResult result
        (λ inputs. (class : List ℕ) → has_class inputs.keys class
        ≡ is_input_class known.now derivation.now class)
        (λ e. e ≡ Memory) }
{
    set_of(alloc, &input_classes(alloc, known, derivation)?)
}

// The records of the inputs' classes, with no step.
fn no_step(alloc: Global, desk: &Desk, inputs: &IndexSet<StorePath>) -> Result<Reached, Refusal>
    ensures { MatchResult result
        (λ reached. IsReached desk.now.records inputs.now.keys 0 reached)
        (λ e. e ≡ Memory) }
{
    let records = records_of(alloc, desk, inputs)?;
    Ok(Reached {
        records,
        from: 0,
        seen: IndexSet::new(alloc),
    })
}

// One step more: what the labels of the last step's records name.
fn one_step(
    alloc: Global,
    desk: &Desk,
    inputs: &IndexSet<StorePath>,
    reached: &mut Reached,
) -> Result<(), Refusal>
    requires { reached.old.from ≤ length reached.old.records.items }
    ensures { MatchResult result
        (λ _. IsStep desk.now.records inputs.now.keys reached.old reached.new)
        (λ e. e ≡ Memory) }
{
    let named = named_by(alloc, inputs, &reached.seen, reached.fresh())?;
    let mut next = records_named(alloc, desk, &named)?;
    add_pairs(&mut reached.seen, &named)?;
    reached.from = reached.records.len();
    reached.records.append(&mut next)?;
    Ok(())
}

// What is reached from the records of the inputs' classes, until a step reaches nothing.
fn all_steps(
    alloc: Global,
    desk: &Desk,
    inputs: &IndexSet<StorePath>,
) -> Result<Vec<Record>, Refusal>
    ensures { MatchResult result
        (λ found. AreReached desk.now.records (has_class inputs.now.keys) found.items)
        (λ e. e ≡ Memory) }
{
    let mut reached = no_step(alloc, desk, inputs)?;
    for _step in 0..desk.record_count() {
        if reached.fresh().is_empty() {
            return Ok(reached.into_records());
        }
        one_step(alloc, desk, inputs, &mut reached)?;
    }
    Ok(reached.into_records())
}

/// The records of a desk that are those for an input of the derivation, or are referred to from there,
/// directly or through others. Those of one class at one path come in their order.
///
/// Only records of the inputs' classes, and of those that the labels of records below name, are
/// looked at: with no inputs none is.
///
/// # Errors
///
/// - `Memory` only where memory was refused.
pub fn records_below(
    alloc: Global,
    desk: &Desk,
    derivation: &Derivation,
) -> Result<Vec<Record>, Refusal>
    ensures { MatchResult result
        (λ found. AreBelow desk.now.known derivation.now desk.now.records found.items)
        (λ e. e ≡ Memory) }
{
    let inputs = inputs_of(alloc, desk.known(), derivation)?;
    all_steps(alloc, desk, &inputs)
}
