//! Who gives a command.
use crate::sameness::Same;
use adr_queries::Role;

impl Same for Role {
    fn is_same(&self, other: &Role) -> bool {
        match (self, other) {
            (Role::Operator, Role::Operator) => true,
            (Role::Ven(id), Role::Ven(other_id)) => id.is_same(other_id),
            (Role::Utility, Role::Utility) => true,
            _ => false,
        }
    }
}
