//! What is known of all calls that a real holds, so that they are not looked at one by one wherever the real comes to another cell.

ghost use Rattle.std.specs.Prelude.{◌≡◌, ◌≤◌, ℕ, IfOk, [], true};
ghost use Rattle.std.specs.Prelude.{List};
ghost use Rattle.std.specs.List.{list_any};
ghost use Rattle.seam_value.specs.declared.values.Value.{Value as AnyValue};
ghost use Rattle.seam_defs.specs.declared.flags.Part.TheVariants as part_of;
ghost use Rattle.seam_defs.specs.declared.states.Deed.TheVariants as deed;
ghost use Rattle.seam_call.specs.declared.call.Call.{Call as CallData};
ghost use Rattle.seam_entity.specs.Covers.{takes as takes_args, covers_deed, covers, IsCellMethod};
ghost use Rattle.seam_entity.specs.Fitting.{can_do as can_part_do};
ghost use Rattle.seam_entity.specs.Executing.{fits_cell_part as call_fits};
ghost use Rattle.seam_entity.specs.Preparing.{node_with};

use crate::fitting::is_inside;
use seam_call::Call;
use seam_defs::{Deed, Defs, Listed, Method, Part, Settings, TypeDef};
use seam_geo::Pos;
use seam_value::{ShortText, Value, ValueType};
use std::alloc::{AllocError, Global};
use std::marker::Model;

/// A cover of calls: the entity that they are for, a position that no move goes beyond in either direction, and the methods that they
/// call, by number, each without its name and its body.
///
/// It speaks of no definitions and no space: whether all that it covers fits some is asked of it, in time with the methods alone.
#[derive(Drop)]
pub(crate) struct Cover {
    entity: u32,
    far: Pos,
    methods: Vec<(u16, Method)>,
}

impl Model for Cover {
    ghost use Rattle.seam_entity.specs.Covers.{CoverView};

    ghost Value = { CoverView };

    ghost view = { λ k. record { entity = k.entity; far = k.far; methods = k.methods.items } };
}

// Whether the method has this number, and takes the arguments.
fn takes(entry: &(u16, Method), number: u16, args: &[Value]) -> bool
    ensures { result ≡ takes_args number args.now entry.now }
{
    entry.0 == number && entry.1.takes(args)
}

// Whether one of the methods has this number, and takes the arguments.
fn one_takes(methods: &[(u16, Method)], number: u16, args: &[Value]) -> bool
    ensures { result ≡ list_any (takes_args number args.now) methods.now }
{
    methods.iter().any(|entry| takes(entry, number, args))
}

// Whether it is the cell part.
fn is_cell(part: Part) -> bool
    ensures { result ≡ true → part ≡ part_of.Cell }
{
    part == Part::Cell
}

// Whether the types of arguments are the same.
fn are_same(a: &[ValueType], b: &[ValueType]) -> bool
    ensures { result ≡ true → a.now ≡ b.now }
{
    a == b
}

// Whether the type has the method of this number at its cell part, with the same types of arguments.
fn is_cell_method(t: &TypeDef, entry: &(u16, Method)) -> bool
    ensures { result ≡ true → IsCellMethod t.now entry.now }
{
    match t.method(entry.0) {
        Some(own) => is_cell(own.part) && are_same(own.args.as_slice(), entry.1.args.as_slice()),
        None => false,
    }
}

// Whether the type has each of the methods, so that its cell part can do what calls them.
fn are_cell_methods(t: &TypeDef, methods: &[(u16, Method)]) -> bool
    ensures { result ≡ true → (size m : ℕ) (args : List AnyValue) →
        list_any (takes_args m args) methods.now ≡ true →
        can_part_do size t.now part_of.Cell (deed.Method m args) ≡ true }
{
    for entry in methods {
        if !is_cell_method(t, entry) {
            return false;
        }
    }
    true
}

// The method without its name and its body.
fn bare(method: &Method) -> Result<Method, AllocError>
    ensures { IfOk result (λ m. m.args ≡ method.now.args) }
{
    let alloc = *method.args.allocator();
    Ok(Method {
        name: ShortText::empty(alloc),
        part: method.part,
        exposed: method.exposed,
        args: Listed::of(method.args.as_slice().to_vec(alloc)?),
        body: Listed::of(Vec::new(alloc)),
    })
}

// Adds the type's method of this number, if it takes the arguments.
fn add(
    methods: &mut Vec<(u16, Method)>,
    t: &TypeDef,
    number: u16,
    args: &[Value],
) -> Result<(), AllocError>
    ensures { (m : ℕ) (others : List AnyValue) →
        list_any (takes_args m others) methods.old.items ≡ true →
        list_any (takes_args m others) methods.new.items ≡ true }
{
    let Some(method) = t.method(number) else {
        return Ok(());
    };
    if !method.takes(args) {
        return Ok(());
    }
    let method = bare(method)?;
    methods.push((number, method))?;
    Ok(())
}

// The position that is as far as both, in either direction.
fn farther(a: Pos, b: Pos) -> Pos
    ensures first_x { a.x ≤ result.x }
    ensures first_z { a.z ≤ result.z }
    ensures second_x { b.x ≤ result.x }
    ensures second_z { b.z ≤ result.z }
{
    Pos {
        x: a.x.max(b.x),
        z: a.z.max(b.z),
    }
}

impl Cover {
    /// A cover of moves to the origin alone.
    pub(crate) fn new(alloc: Global, entity: u32) -> Self
        ensures { result ≡ record { entity = entity; far = record { x = 0; z = 0 }; methods = [] } }
    {
        Cover {
            entity,
            far: Pos { x: 0, z: 0 },
            methods: Vec::new(alloc),
        }
    }

    /// Whether the call is one that it speaks of.
    pub(crate) fn covers(&self, call: &Call) -> bool
        ensures { result ≡ covers self.now call.now }
    {
        call.is_for(Part::Cell, self.entity) && self.covers_deed(&call.deed)
    }

    fn covers_deed(&self, deed: &Deed) -> bool
        ensures { result ≡ covers_deed self.now deed.now }
    {
        match deed {
            Deed::Move(pos) => pos.x <= self.far.x && pos.z <= self.far.z,
            Deed::Method(number, args) => one_takes(&self.methods, *number, args.values()),
        }
    }

    /// Covers the deed too, if it is one of the type. What was covered still is, also if allocation fails.
    pub(crate) fn widen(&mut self, t: &TypeDef, deed: &Deed) -> Result<(), AllocError>
        ensures { (c : CallData) → covers self.old c ≡ true → covers self.new c ≡ true }
    {
        if self.covers_deed(deed) {
            return Ok(());
        }
        match deed {
            Deed::Move(pos) => {
                self.far = farther(self.far, *pos);
                Ok(())
            }
            Deed::Method(number, args) => add(&mut self.methods, t, *number, args.values()),
        }
    }

    /// Whether all that it covers fits: so does then each call that is covered.
    pub(crate) fn fits(&self, defs: &Defs, settings: &Settings, entity: u32, ty: u16) -> bool
        ensures { result ≡ true → (me : ℕ) (c : CallData) → covers self.now c ≡ true →
            call_fits (node_with defs.now me settings.now) entity ty c ≡ true }
    {
        self.entity == entity
            && (is_inside(settings.size, self.far)
                && are_cell_methods(defs.type_at(ty), &self.methods))
    }
}
