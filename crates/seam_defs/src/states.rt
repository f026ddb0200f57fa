ghost use Rattle.std.specs.Prelude.{◌≡◌, IfOk};
ghost use Rattle.seam_defs.specs.Deeds.{with_later};

use crate::Props;
use crate::props::KeptValues;
use seam_geo::Pos;
use seam_value::Value;
use std::alloc::AllocError;
use std::marker::Model;
use std::mem;

/// The arguments of a call.
#[derive(Debug, Drop)]
pub struct Args {
    values: Vec<Value>,
}

impl Model for Args {
    ghost use Rattle.std.specs.Prelude.{List};
    ghost use Rattle.seam_value.specs.declared.values.Value.{Value as AnyValue};

    ghost Value = { List AnyValue };

    ghost view = { λ a. a.values.items };
}

impl Args {
    /// The values of the vector, in its order.
    pub fn of(values: Vec<Value>) -> Self
        ensures { result ≡ values.items }
    {
        Args { values }
    }

    /// Arguments with equal values.
    pub fn copy(&self) -> Result<Args, AllocError>
        ensures { IfOk result (λ args. args ≡ self.now) }
    {
        let values = KeptValues::all(&self.values).copy(*self.values.allocator())?;
        Ok(Args { values })
    }

    /// The values, the first argument first.
    pub fn values(&self) -> &[Value]
        ensures { result.now ≡ self.now }
    {
        &self.values
    }
}

/// What a call does: it moves the entity, or executes the method of this number.
#[derive(Debug, Drop)]
pub enum Deed {
    Move(Pos),
    Method(u16, Args),
}

/// The state of one part of an entity. Of a base part the position means nothing.
#[derive(Debug, Drop)]
pub struct State {
    pub pos: Pos,
    pub props: Props,
}

impl State {
    /// An equal state.
    pub fn copy(&self) -> Result<State, AllocError>
        ensures { IfOk result (λ state. state ≡ self.now) }
    {
        Ok(State {
            pos: self.pos,
            props: self.props.copy()?,
        })
    }

    /// Takes what a deed left of it.
    pub fn advance(&mut self, later: Later)
        ensures { self.new ≡ with_later self.old later }
    {
        self.pos = later.pos;
        if let Some(props) = later.props {
            mem::replace(&mut self.props, props).release();
        }
    }
}

/// What a deed leaves of a state: its position, and its values where the deed is not one that leaves all of them as they are. So no
/// values are copied, nor counted once more, where an entity moves.
#[derive(Debug, Drop)]
pub struct Later {
    pub pos: Pos,
    pub props: Option<Props>,
    /// Whether what others may see of the part differs.
    pub changed: bool,
}

impl Later {
    /// The values that it leaves of a state.
    pub fn props_over<'a>(&'a self, state: &'a State) -> &'a Props
        ensures { result.now ≡ (with_later state.now self.now).props }
    {
        match &self.props {
            Some(props) => props,
            None => &state.props,
        }
    }

    /// The state that it leaves of one.
    pub fn over(self, state: &State) -> Result<State, AllocError>
        ensures { IfOk result (λ s. s ≡ with_later state.now self) }
    {
        let Later { pos, props, .. } = self;
        match props {
            Some(props) => Ok(State { pos, props }),
            None => Ok(State {
                pos,
                props: state.props.copy()?,
            }),
        }
    }
}
