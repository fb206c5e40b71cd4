//! The one scope of an operator's ports, scalars and arrays, in which a name is found by its hash.

ghost use Rattle.std.specs.Prelude.{◌≡◌, cond, map, nat_le, IfOk, OnOk, Some};
ghost use Rattle.std.specs.Str.{bytes_eq};
ghost use Rattle.std.specs.Map.{lookup};
ghost use Rattle.pld_check.specs.Uses.{Mention, of_port, of_scalar, of_array, declarations};
ghost use Rattle.pld_check.specs.Faults.{times_declared};
ghost use Rattle.pld_check.specs.Scopes.{sooner as sooner_of, with_one as with_one_of, declared_from, declared_as, is_again as is_again_of, role_at as role_at_of};

use crate::roles::{Role, port_role, precedes};
use indexmap::IndexMap;
use pld_ast::{Array, Operator, Port, Scalar};
use pld_base::{Name, NoMemory, Place};
use std::alloc::Global;
use std::marker::Model;

/// What stands under a name: as what its first declaration in the text makes it known, and where; and where its second one stands.
#[derive(Clone, Copy, Debug, PartialEq, Eq, Drop)]
pub struct Declared {
    pub role: Role,
    pub at: Place,
    pub again: Option<Place>,
}

/// A declaration of a name.
pub trait Declaration {
    ghost mention: { Self → Mention };

    /// The name.
    fn name(&self) -> &Name
        ensures { result.now ≡ (mention self.now).name };

    /// Where it stands.
    fn at(&self) -> Place
        ensures { result ≡ (mention self.now).at };

    /// What it declares the name as.
    fn role(&self) -> Role
        ensures { result ≡ (mention self.now).role };
}

impl Declaration for Port {
    ghost mention = { of_port };

    fn name(&self) -> &Name {
        &self.name
    }

    fn at(&self) -> Place {
        self.at
    }

    fn role(&self) -> Role {
        port_role(self.side)
    }
}

impl Declaration for Scalar {
    ghost mention = { of_scalar };

    fn name(&self) -> &Name {
        &self.name
    }

    fn at(&self) -> Place {
        self.at
    }

    fn role(&self) -> Role {
        Role::Scalar
    }
}

impl Declaration for Array {
    ghost mention = { of_array };

    fn name(&self) -> &Name {
        &self.name
    }

    fn at(&self) -> Place {
        self.at
    }

    fn role(&self) -> Role {
        Role::Array
    }
}

/// An operator with its scope. Contracts see the operator.
#[derive(Drop)]
pub struct Scoped {
    operator: Operator,
    by_name: IndexMap<Name, Declared>,
}

impl Model for Scoped {
    ghost use Rattle.pld_ast.specs.declared.tree.Operator.{Operator};
    ghost use Rattle.pld_check.specs.Uses.{declarations};
    ghost use Rattle.pld_check.specs.Scopes.{IsScopeOf};

    ghost Value = { Operator };

    ghost use Rattle.pld_ast.specs.contracts.tree.Stmt as stmt;
    ghost use Rattle.pld_ast.specs.contracts.tree.Expr as expr;
    ghost use Rattle.std.specs.Coded.{codes};

    ghost coded = { Prim.hlevel (codes, stmt.the_row.coded, expr.the_row.coded) };

    ghost view = { λ s. s.operator };

    ghost invariant = { λ s. IsScopeOf (declarations s.operator) s.by_name.entries };
}

// The place that stands first in the text.
fn sooner(p: Option<Place>, at: Place) -> Place
    ensures { result ≡ sooner_of p at }
{
    match p {
        None => at,
        Some(p) => { if precedes(at, p) { at } else { p } }
    }
}

// One more declaration, as this at this place, of a name under which that stands.
fn with_one<D: Declaration>(before: Option<Declared>, declaration: &D) -> Declared
    ensures { result ≡ with_one_of before (D.mention declaration.now) }
{
    let role = declaration.role();
    let at = declaration.at();
    match before {
        None => Declared {
            role,
            at,
            again: None,
        },
        Some(first) => {
            if precedes(at, first.at) {
                Declared {
                    role,
                    at,
                    again: Some(first.at),
                }
            } else {
                Declared {
                    role: first.role,
                    at: first.at,
                    again: Some(sooner(first.again, at)),
                }
            }
        }
    }
}

// Whether a name under which this stands is declared twice up to this place.
fn is_again(declared: Option<Declared>, at: Place) -> bool
    ensures { result ≡ is_again_of declared at }
{
    match declared {
        None => false,
        Some(first) => match first.again {
            None => false,
            Some(second) => !precedes(at, second),
        },
    }
}

// What such a name is known as at this place, if it isn't declared twice up to there.
fn role_at(declared: Option<Declared>, at: Place) -> Option<Role>
    ensures { result ≡ role_at_of declared at }
{
    match declared {
        None => None,
        Some(first) => {
            if precedes(at, first.at) {
                None
            } else {
                Some(first.role)
            }
        }
    }
}

// Adds a declaration.
fn declare<D: Declaration>(
    by_name: &mut IndexMap<Name, Declared>,
    declaration: &D,
) -> Result<(), NoMemory>
    ensures { OnOk result ((q : _) → lookup (bytes_eq q) by_name.new.entries ≡ cond (bytes_eq (D.mention declaration.now).name q) (Some (with_one_of (lookup (bytes_eq (D.mention declaration.now).name) by_name.old.entries) (D.mention declaration.now))) (lookup (bytes_eq q) by_name.old.entries)) }
{
    let name = declaration.name();
    let declared = with_one(by_name.get(name).copied(), declaration);
    by_name.insert(*name, declared)?;
    Ok(())
}

// Adds declarations.
fn declare_all<D: Declaration>(
    by_name: &mut IndexMap<Name, Declared>,
    declarations: &[D],
) -> Result<(), NoMemory>
    ensures { OnOk result ((q : _) → lookup (bytes_eq q) by_name.new.entries ≡ declared_from (lookup (bytes_eq q) by_name.old.entries) q (map D.mention declarations.now)) }
{
    for declaration in declarations {
        declare(by_name, declaration)?;
    }
    Ok(())
}

impl Scoped {
    /// The operator with its scope.
    pub fn of(alloc: Global, operator: Operator) -> Result<Scoped, NoMemory>
        ensures { IfOk result (λ scoped. scoped ≡ operator) }
    {
        let mut by_name = IndexMap::new(alloc);
        declare_all(&mut by_name, operator.ports.as_slice())?;
        declare_all(&mut by_name, operator.scalars.as_slice())?;
        declare_all(&mut by_name, operator.arrays.as_slice())?;
        Ok(Scoped { operator, by_name })
    }

    /// The operator.
    pub fn operator(&self) -> &Operator
        ensures { result.now ≡ self.now }
    {
        &self.operator
    }

    /// The operator without its scope.
    pub fn into_operator(self) -> Operator
        ensures { result ≡ self }
    {
        self.operator
    }

    // What stands under a name.
    fn declared(&self, name: &Name) -> Option<Declared>
        ensures { result ≡ declared_as name.now (declarations self.now) }
    {
        self.by_name.get(name).copied()
    }

    /// Whether the name is declared twice up to this place.
    pub fn is_twice(&self, name: &Name, at: Place) -> bool
        ensures { result ≡ nat_le 2 (times_declared (declarations self.now) name.now at) }
    {
        is_again(self.declared(name), at)
    }

    /// What the name is known as at this place, where it isn't declared twice up to there.
    pub fn role_at(&self, name: &Name, at: Place) -> Option<Role>
        ensures { result ≡ role_at_of (declared_as name.now (declarations self.now)) at }
    {
        role_at(self.declared(name), at)
    }
}
