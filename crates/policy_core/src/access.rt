//! Permissions of roles, and CheckAccess.
ghost use Rattle.std.specs.Prelude.{◌≡◌, ℕ, ◌<◌, ◌≤◌, [], ◌∷◌, List, None, Some, OnOk, OnErr, IfErr, IfOk, IfNone, IfSome, ◌↔◌, ◌+◌, ◌-◌, true, false, bytes_eq, nat_eq, is_some, is_none, map, unwrap_or, length, filter, not};
ghost use Rattle.std.specs.Map.{lookup};
ghost use Rattle.std.specs.Result.{result_err};
ghost use Rattle.role_hierarchy.specs.Below.{closed};
ghost use Rattle.role_hierarchy.specs.Order.{is_there};
ghost use Rattle.role_hierarchy.specs.Roles.{has};
ghost use Rattle.callback_store.specs.Meter.{after_walk};
ghost use Rattle.permission_core.specs.Objects.{number_of, first_of, size_of, is_bad_range};
ghost use Rattle.permission_core.specs.declared.objects.Operation.TheVariants as operations;
ghost use Rattle.permission_core.specs.declared.objects.Object.TheVariants as objects;
ghost use Rattle.policy_core.specs.State.{slot_of, is_session};
ghost use Rattle.policy_core.specs.Access.{row_of, is_here, is_reached, reaches, reached_roles, has_access, CheckAccess};
ghost use Rattle.policy_core.specs.Commands.{granted, revoked, grant_refusal};

use crate::policy::Policy;
use crate::refusal::Refusal;
use callback_store::Meter;
use permission_core::{Object, ObjectRange, ObjectSet, Operation};
use role_hierarchy::RoleSet;
use separation_core::Name;

impl Policy {
    /// GrantPermission for each object of the range. In this order `NoRole`, `BadObject`.
    pub fn grant_permission(
        &mut self,
        role: Name,
        operation: Operation,
        range: ObjectRange,
    ) -> Result<(), Refusal>
        ensures ok { OnOk result (self.new ≡ granted self.old role operation range) }
        ensures err { OnErr result (self.new ≡ self.old) }
        ensures refused { result_err result ≡ grant_refusal self.old role range }
    {
        let (slot, first, end) = self.judge_range(role, range)?;
        self.grants.grant(slot, operation, first, end);
        Ok(())
    }

    /// RevokePermission for each object of the range. In this order `NoRole`, `BadObject`.
    pub fn revoke_permission(
        &mut self,
        role: Name,
        operation: Operation,
        range: ObjectRange,
    ) -> Result<(), Refusal>
        ensures ok { OnOk result (self.new ≡ revoked self.old role operation range) }
        ensures err { OnErr result (self.new ≡ self.old) }
        ensures refused { result_err result ≡ grant_refusal self.old role range }
    {
        let (slot, first, end) = self.judge_range(role, range)?;
        self.grants.revoke(slot, operation, first, end);
        Ok(())
    }

    /// The slot of the role, and the numbers of the range's first object and of the one past its last.
    #[tactic(auto, unfolding(crate::specs::Commands::grant_refusal))]
    fn judge_range(&self, role: Name, range: ObjectRange) -> Result<(u8, u32, u32), Refusal>
        ensures refused { result_err result ≡ grant_refusal self.now role range }
        ensures slot { IfOk result (λ r. r.0 ≡ slot_of self.now role) }
        ensures first { IfOk result (λ r. r.1 ≡ first_of range) }
        ensures size { IfOk result (λ r. r.2 - r.1 ≡ size_of range) }
        ensures order { IfOk result (λ r. r.1 ≤ r.2) }
        ensures small { IfOk result (λ r. r.2 ≤ 2048) }
        ensures there { IfOk result (λ r. is_there self.now.order r.0 ≡ true) }
    {
        self.is_policy();
        let Some(slot) = self.slot_of(role) else {
            return Err(Refusal::NoRole);
        };
        let Some((first, end)) = range.span(self.customers, self.vehicles) else {
            return Err(Refusal::BadObject);
        };
        Ok((slot, first, end))
    }

    /// The objects to which the role of the slot may do the operation by itself, without the roles that it inherits: each object as its
    /// number.
    pub fn permissions(&self, slot: u8, operation: Operation) -> &ObjectSet
        ensures { result.now ≡ row_of self.now slot operation }
    {
        self.grants.row(slot, operation)
    }

    /// Whether there is such a session. It costs one look-up.
    pub fn is_session(&self, session: u32) -> bool
        ensures { result ≡ is_session self.now session }
    {
        self.sessions.contains_key(&session)
    }

    /// The slots of the roles to which an active one of the session is senior, the active ones
    /// among them; `None` where there is no such session.
    pub fn reached_roles(&self, session: u32) -> Option<RoleSet>
        ensures { result ≡ reached_roles self.now session }
    {
        match self.sessions.get(&session) {
            Some(found) => Some(self.order.closure(found.active)),
            None => None,
        }
    }

    /// Whether some role below these may do the operation to the object of that number.
    fn reaches(&self, active: RoleSet, operation: Operation, number: u32) -> bool
        requires { number < 2048 }
        ensures { result ≡ reaches self.now active operation number }
    {
        let below = self.below(active);
        let mut from = 0;
        while let Some(slot) = below.next_from(from) {
            if self.permissions(slot, operation).contains(number) {
                return true;
            }
            from = slot as u32 + 1;
        }
        false
    }

    /// The roles to which one of these is senior, themselves among them.
    fn below(&self, roles: RoleSet) -> RoleSet
        ensures { result ≡ closed self.now.order roles }
    {
        self.order.closure(roles)
    }

    /// The number of the object; `None` where there is no such object.
    fn number_of(&self, object: Object) -> Option<u32>
        ensures there { is_some result ≡ is_here self.now object }
        ensures value { IfSome result (λ number. number ≡ number_of object) }
        ensures small { IfSome result (λ number. number < 2048) }
    {
        object.number(self.customers, self.vehicles)
    }

    #[tactic(auto, unfolding(crate::specs::Access::has_access))]
    fn has_access(&self, session: u32, operation: Operation, object: Object) -> bool
        ensures { result ≡ has_access self.now session operation object }
    {
        let Some(found) = self.session_of(session) else {
            return false;
        };
        let Some(number) = self.number_of(object) else {
            return false;
        };
        self.reaches(found.active, operation, number)
    }

    /// CheckAccess (6.2): whether an active role of the session, or one that it inherits, may do the operation to the object; `false` where
    /// there is no such session or object. It walks over the roles, and counts one walk.
    pub fn check_plain(
        &self,
        session: u32,
        operation: Operation,
        object: Object,
        meter: &mut Meter,
    ) -> bool
        ensures value { result ≡ has_access self.now session operation object }
        ensures exists { (result ≡ true) ↔ CheckAccess self.now session operation object }
        ensures counted { meter.new ≡ after_walk meter.old }
    {
        self.is_policy();
        meter.walk();
        self.has_access(session, operation, object)
    }

    /// Whether the session may give any command: CheckAccess of `admin` on the board.
    pub fn is_administrator(&self, session: u32) -> bool
        ensures { result ≡ has_access self.now session operations.Admin objects.Board }
    {
        self.has_access(session, Operation::Admin, Object::Board)
    }
}
