//! The inputs of calc, calcout and sel, with their values.
ghost use Rattle.std.specs.Prelude.{◌≡◌, ◌<◌, length, replicate, IfOk, IfSome};
ghost use Rattle.std.specs.Option.{option_copied};
ghost use Rattle.ioc_double.specs.Size.{whole_double};
ghost use Rattle.ioc_dbcommon.specs.Links.{no_link};
ghost use Rattle.rec_calc.specs.Inputs.{new_inputs, input_number, placed, inputs_link, inputs_with_link, inputs_get};
ghost use Rattle.rec_calc.specs.Inputs.{inputs_stored, with_sent, constants_put, constant_or, settled, sent, last_sent, posted};

use ioc_dbcommon::{LinkBox, constant_in, double_in};
use ioc_fields::{FieldSlot, OwnField};
use ioc_values::{Double, Kind, Value};
use std::alloc::{AllocError, Global};

/// The twelve inputs of a record, with their values. Record Reference Manual, "Calculation Record",
/// "Read Parameters".
#[derive(Drop)]
pub struct Inputs {
    /// INPA to INPL.
    pub links: [LinkBox; 12],
    /// A to L.
    pub values: [Double; 12],
    /// LA to LL: the values that monitors were last sent.
    pub last_sent: [Double; 12],
}

// Returns the number of an input, or `None` if there are fewer inputs.
fn input_number(slot: FieldSlot) -> Option<usize>
    ensures number { result ≡ input_number slot }
    ensures below { IfSome result (λ n. n < 12) }
{
    let number = slot.index();
    if number < 12 { Some(number) } else { None }
}

// Returns twelve empty links.
fn no_links() -> [LinkBox; 12]
    ensures { result ≡ replicate 12 no_link }
{
    [
        LinkBox::empty(),
        LinkBox::empty(),
        LinkBox::empty(),
        LinkBox::empty(),
        LinkBox::empty(),
        LinkBox::empty(),
        LinkBox::empty(),
        LinkBox::empty(),
        LinkBox::empty(),
        LinkBox::empty(),
        LinkBox::empty(),
        LinkBox::empty(),
    ]
}

// Copies the links.
fn copy_links(alloc: Global, links: &[LinkBox; 12]) -> Result<[LinkBox; 12], AllocError>
    ensures { IfOk result (λ copy. copy ≡ links.now) }
{
    let mut copies = no_links();
    for (i, link) in links.iter().enumerate() {
        copies[i] = link.copy(alloc)?;
    }
    Ok(copies)
}

// States that there are twelve links.
fn tell_count(links: &[LinkBox; 12])
    ensures { length links.now ≡ 12 }
{
    let _ = links;
}

// Sets the link of an input.
fn place_link(links: &mut [LinkBox; 12], slot: FieldSlot, link: LinkBox)
    ensures { links.new ≡ placed no_link links.old slot link }
{
    let number = slot.index();
    if number < 12 {
        links[number] = link;
    }
}

// Sets the value of an input.
fn place_value(values: &mut [Double; 12], slot: FieldSlot, value: Double)
    ensures { values.new ≡ placed (whole_double 0) values.old slot value }
{
    let number = slot.index();
    if number < 12 {
        values[number] = value;
    }
}

// Returns a constant link as a double, or else this value.
#[tactic(auto, unfolding(crate::specs::Inputs::constant_or, ioc_values::specs::Conversion::sort_of))]
fn constant_or(link: &LinkBox, value: Double) -> Double
    ensures { result ≡ constant_or link.now value }
{
    match constant_in(Kind::Double, &link.get().link) {
        Some(constant) => double_in(constant).unwrap_or(value),
        None => value,
    }
}

// Returns the value that monitors of an input have been sent, given the one that they were sent
// before: the value itself, if it is another or if the record's alarm has changed.
#[tactic(auto, unfolding(crate::specs::Inputs::sent))]
fn sent(alarm_changed: bool, value: Double, last: Double) -> Double
    ensures { result ≡ sent alarm_changed value last }
{
    if alarm_changed || value.number() != last.number() {
        value
    } else {
        last
    }
}

// Puts the constants among the links into the values.
fn put_constants(links: &[LinkBox; 12], values: &mut [Double; 12])
    ensures { values.new ≡ constants_put links.now values.old }
{
    for i in 0..12 {
        values[i] = constant_or(&links[i], values[i]);
    }
}

// Notes which values monitors are sent.
fn send(alarm_changed: bool, values: &[Double; 12], last: &mut [Double; 12])
    ensures { last.new ≡ last_sent alarm_changed values.now last.old }
{
    for i in 0..12 {
        last[i] = sent(alarm_changed, values[i], last[i]);
    }
}

impl Inputs {
    /// Creates the inputs of a new record: empty links, and this value in each of the others.
    #[tactic(auto, unfolding(crate::specs::Inputs::new_inputs))]
    pub fn new(value: Double) -> Self
        ensures { result ≡ new_inputs value }
    {
        Inputs {
            links: no_links(),
            values: [value; 12],
            last_sent: [Double::from(0i32); 12],
        }
    }

    /// Returns the link of an input, or `None` for any other field.
    pub fn link(&self, field: OwnField) -> Option<&LinkBox>
        ensures { option_copied result ≡ inputs_link self.now.links field }
    {
        match field {
            OwnField::InputLink(slot) => {
                let number = input_number(slot)?;
                Some(&self.links[number])
            }
            _ => None,
        }
    }

    /// Sets the link of an input. Any other field stays the same.
    #[tactic(auto, unfolding(crate::specs::Inputs::inputs_with_link))]
    pub fn set_link(&mut self, field: OwnField, link: LinkBox)
        ensures { self.new ≡ inputs_with_link self.old field link }
    {
        if let OwnField::InputLink(slot) = field {
            place_link(&mut self.links, slot, link);
        }
    }

    /// Returns the value of one of A to L and LA to LL.
    #[tactic(auto, unfolding(crate::specs::Inputs::inputs_get))]
    pub fn get(&self, field: OwnField) -> Option<Value>
        ensures { result ≡ inputs_get self.now field }
    {
        match field {
            OwnField::Letter(slot) => Some(Value::Double(self.values[input_number(slot)?])),
            OwnField::LastLetter(slot) => Some(Value::Double(self.last_sent[input_number(slot)?])),
            _ => None,
        }
    }

    /// Stores a value that was converted for one of A to L.
    #[tactic(auto, unfolding(crate::specs::Inputs::inputs_stored))]
    pub fn store(&mut self, field: OwnField, value: Value)
        ensures { self.new ≡ inputs_stored self.old field value }
    {
        if let (OwnField::Letter(slot), Some(number)) = (field, double_in(value)) {
            place_value(&mut self.values, slot, number);
        }
    }

    /// Sets one of LA to LL as it is.
    #[tactic(auto, unfolding(crate::specs::Inputs::with_sent))]
    pub fn set_sent(&mut self, field: OwnField, value: Value)
        ensures { self.new ≡ with_sent self.old field value }
    {
        if let (OwnField::LastLetter(slot), Some(number)) = (field, double_in(value)) {
            place_value(&mut self.last_sent, slot, number);
        }
    }

    /// Puts constants among the links into A to L, and then A to L into LA to LL, as at the end of a
    /// load.
    #[tactic(auto, unfolding(crate::specs::Inputs::settled))]
    pub fn settle(&mut self)
        ensures { self.new ≡ settled self.old }
    {
        put_constants(&self.links, &mut self.values);
        self.last_sent = self.values;
    }

    /// Sets each of LA to LL to the value of its input, if that is another, and all of them if the
    /// alarm of the record has changed.
    #[tactic(auto, unfolding(crate::specs::Inputs::posted))]
    pub fn post(&mut self, alarm_changed: bool)
        ensures { self.new ≡ posted alarm_changed self.old }
    {
        send(alarm_changed, &self.values, &mut self.last_sent);
    }

    /// Copies the inputs.
    ///
    /// # Errors
    ///
    /// [`AllocError`] if allocation fails.
    pub fn copy(&self, alloc: Global) -> Result<Self, AllocError>
        ensures { IfOk result (λ copy. copy ≡ self.now) }
    {
        let links = copy_links(alloc, &self.links)?;
        Ok(Inputs {
            links,
            values: self.values,
            last_sent: self.last_sent,
        })
    }

    /// Copies the inputs of `other`, which must have the same links. It never allocates.
    pub fn copy_from(&mut self, other: &Inputs)
        requires { inputs_link self.old.links ≡ inputs_link other.now.links }
        ensures { self.new ≡ other.now }
    {
        tell_count(&self.links);
        tell_count(&other.links);
        self.values = other.values;
        self.last_sent = other.last_sent;
    }
}
