//! Runners with their passes, and apart again.

ghost use Rattle.std.specs.Prelude.{◌≡◌, ◌≤◌, ◌+◌, [], ◌++◌, length, map, vec_capacity};

/// Each runner with the pass in its place. The two vectors keep their room.
pub(crate) fn seat_all<U, P>(runners: &mut Vec<U>, passes: &mut Vec<P>, clients: &mut Vec<(P, U)>)
    requires many { length passes.old.items ≡ length runners.old.items }
    requires none { clients.old.items ≡ [] }
    requires room { length runners.old.items ≤ vec_capacity clients.old }
    ensures runners { map (λ c. c.1) clients.new.items ≡ runners.old.items }
    ensures passes { map (λ c. c.0) clients.new.items ≡ passes.old.items }
    ensures taken { (runners.new.items ≡ []) × (passes.new.items ≡ []) }
    ensures kept { (vec_capacity runners.new ≡ vec_capacity runners.old)
        × (vec_capacity passes.new ≡ vec_capacity passes.old) }
{
    while !runners.is_empty() {
        let runner = runners.remove(0);
        let pass = passes.remove(0);
        clients.push_reserved((pass, runner));
    }
}

/// Each client's runner and its pass, in their places.
pub(crate) fn take_apart<U, P>(mut clients: Vec<(P, U)>, runners: &mut Vec<U>, passes: &mut Vec<P>)
    requires none { runners.old.items ≡ [] }
    requires runners { length clients.items ≤ vec_capacity runners.old }
    requires passes { length passes.old.items + length clients.items ≤ vec_capacity passes.old }
    ensures runners { runners.new.items ≡ map (λ c. c.1) clients.items }
    ensures passes { passes.new.items ≡ passes.old.items ++ map (λ c. c.0) clients.items }
{
    while !clients.is_empty() {
        let (pass, runner) = clients.remove(0);
        runners.push_reserved(runner);
        passes.push_reserved(pass);
    }
    clients.destroy_empty();
}
