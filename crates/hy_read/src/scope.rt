//! The variables that are bound at a place of a text, and the first atom that none of them binds.

ghost use Rattle.std.specs.Prelude.{◌≡◌, ◌++◌, ◌∷◌, [], List, ◌<◌, ◌^◌, OnOk, is_some};
ghost use Rattle.hy_read.specs.Results.{last_place_of};
ghost use Rattle.hy_read.specs.Scanning.{Span};
ghost use Rattle.hy_read.specs.Scans.{span_of};
ghost use Rattle.hy_read.specs.Scopes.{IsScoped, variables_of};

use crate::symbol::Symbol;
use crate::token::{Placed, Token};
use crate::variable::last_place;
use hy_base::M;
use std::alloc::Global;

/// What the tokens that were passed leave bound in the present formula, and the first byte of the
/// first atom among them that is not bound.
#[derive(Drop)]
pub struct Scope<'a> {
    variables: Vec<&'a [u8]>,
    pub unbound: Option<u32>,
}

impl<'a> Scope<'a> {
    /// Before the first token. Takes no memory.
    pub fn new(alloc: Global) -> Scope<'a>
        ensures { IsScoped [] result }
    {
        Scope {
            variables: Vec::new(alloc),
            unbound: None,
        }
    }

    /// Passes one more token.
    pub fn pass(&mut self, next: Placed<'a>) -> M<()>
        requires { next.first < 2 ^ 32 }
        ensures { OnOk result ((front : List Span) → IsScoped front self.old
            → IsScoped (front ++ span_of next.entry ∷ []) self.new) }
    {
        match next.token {
            Token::Symbol(Symbol::Semicolon) => self.variables.clear(),
            Token::Variable(variable) => self.variables.push(variable)?,
            Token::Atom { variable, .. } => {
                if self.unbound.is_none() && !self.binds(variable) {
                    self.unbound = Some(next.first as u32);
                }
            }
            Token::Symbol(_) | Token::Nothing => {}
        }
        Ok(())
    }

    /// Whether the variable is bound.
    fn binds(&self, variable: &[u8]) -> bool
        ensures { result ≡ is_some (last_place_of variable.now (variables_of self.now)) }
    {
        last_place(&self.variables, variable).is_some()
    }
}
