//! Who asks.
ghost use Rattle.std.specs.Prelude.{◌≡◌};
ghost use Rattle.adr_queries.specs.Roles.{is_operator};

use adr_text::ObjectId;

/// Who gives a command or asks a query.
#[derive(Clone)]
pub enum Role {
    /// The operator of this node.
    Operator,
    /// A site's ven, by its id.
    Ven(ObjectId),
    /// The utility.
    Utility,
}

impl Drop for Role {
    fn drop(self) {
        match self {
            Role::Operator => (),
            Role::Ven(_) => (),
            Role::Utility => (),
        }
    }
}

/// Whether the role is the operator's, who alone changes vens, resources and shares.
pub fn is_operator(role: &Role) -> bool
    ensures { result ≡ is_operator role.now }
{
    match role {
        Role::Operator => true,
        Role::Ven(_) | Role::Utility => false,
    }
}
