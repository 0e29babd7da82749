//! The text of a specification that grows with a number: an arbiter for some clients.
#![tactic(auto)]

ghost use Rattle.std.specs.Prelude.{◌≡◌, ◌<◌, ◌≤◌, ◌++◌, ◌∷◌, [], OnOk, IfOk};
ghost use Rattle.spec_gen.specs.Arbiter.{digit, each, head, request, grant, exclusion, exclusions, response, arbiter_text};

use std::alloc::{AllocError, Global};

/// Want of memory.
pub type Memory = AllocError;

/// The text of the specification that grants are exclusive and each request is granted at some time.
///
/// There are 1 to 8 clients, the inputs `r0` and so on, and the outputs `g0` and so on.
pub fn arbiter(alloc: Global, clients: u32) -> Result<Vec<u8>, Memory>
    requires some { 1 ≤ clients }
    requires few { clients ≤ 8 }
    ensures { IfOk result (λ text. text.items ≡ arbiter_text clients) }
{
    let mut text = Vec::new(alloc);
    push_head(&mut text, clients)?;
    text.extend_from_slice(b"  INPUTS {\n")?;
    push_requests(&mut text, clients)?;
    text.extend_from_slice(b"  }\n  OUTPUTS {\n")?;
    push_grants(&mut text, clients)?;
    text.extend_from_slice(b"  }\n  ASSERT {\n")?;
    push_exclusions(&mut text, clients)?;
    text.extend_from_slice(b"  }\n  GUARANTEE {\n")?;
    push_responses(&mut text, clients)?;
    text.extend_from_slice(b"  }\n}\n")?;
    Ok(text)
}

fn push_head(text: &mut Vec<u8>, clients: u32) -> Result<(), Memory>
    requires { clients < 10 }
    ensures { OnOk result (text.new.items ≡ text.old.items ++ head clients) }
{
    text.extend_from_slice(b"INFO {\n  TITLE: \"Arbiter for ")?;
    push_digit(text, clients)?;
    text.extend_from_slice(b" clients\"\n  SEMANTICS: Mealy\n  TARGET: Mealy\n}\nMAIN {\n")?;
    Ok(())
}

fn push_digit(text: &mut Vec<u8>, number: u32) -> Result<(), Memory>
    requires { number < 10 }
    ensures { OnOk result (text.new.items ≡ text.old.items ++ digit number) }
{
    text.push(b'0' + number as u8)?;
    Ok(())
}

fn push_requests(text: &mut Vec<u8>, clients: u32) -> Result<(), Memory>
    requires { clients < 10 }
    ensures { OnOk result (text.new.items ≡ text.old.items ++ each request clients) }
{
    for client in 0..clients {
        push_between(text, b"    r", client, b";\n")?;
    }
    Ok(())
}

fn push_grants(text: &mut Vec<u8>, clients: u32) -> Result<(), Memory>
    requires { clients < 10 }
    ensures { OnOk result (text.new.items ≡ text.old.items ++ each grant clients) }
{
    for client in 0..clients {
        push_between(text, b"    g", client, b";\n")?;
    }
    Ok(())
}

fn push_between(text: &mut Vec<u8>, front: &[u8], number: u32, back: &[u8]) -> Result<(), Memory>
    requires { number < 10 }
    ensures { OnOk result (text.new.items ≡ text.old.items ++ (front.now ++ digit number ++ back.now)) }
{
    text.extend_from_slice(front)?;
    push_digit(text, number)?;
    text.extend_from_slice(back)?;
    Ok(())
}

fn push_exclusions(text: &mut Vec<u8>, clients: u32) -> Result<(), Memory>
    requires { clients < 10 }
    ensures { OnOk result (text.new.items ≡ text.old.items ++ each (exclusions clients) clients) }
{
    for client in 0..clients {
        push_exclusions_of(text, clients, client)?;
    }
    Ok(())
}

fn push_exclusions_of(text: &mut Vec<u8>, clients: u32, client: u32) -> Result<(), Memory>
    requires many { clients < 10 }
    requires one { client < 10 }
    ensures { OnOk result (text.new.items ≡ text.old.items ++ exclusions clients client) }
{
    for other in 0..clients {
        push_exclusion(text, client, other)?;
    }
    Ok(())
}

fn push_exclusion(text: &mut Vec<u8>, client: u32, other: u32) -> Result<(), Memory>
    requires one { client < 10 }
    requires another { other < 10 }
    ensures { OnOk result (text.new.items ≡ text.old.items ++ exclusion client other) }
{
    if client < other {
        push_between(text, b"    !(g", client, b" && g")?;
        push_between(text, b"", other, b");\n")?;
    }
    Ok(())
}

fn push_responses(text: &mut Vec<u8>, clients: u32) -> Result<(), Memory>
    requires { clients < 10 }
    ensures { OnOk result (text.new.items ≡ text.old.items ++ each response clients) }
{
    for client in 0..clients {
        push_response(text, client)?;
    }
    Ok(())
}

fn push_response(text: &mut Vec<u8>, client: u32) -> Result<(), Memory>
    requires { client < 10 }
    ensures { OnOk result (text.new.items ≡ text.old.items ++ response client) }
{
    push_between(text, b"    G (r", client, b" -> F g")?;
    push_between(text, b"", client, b");\n")?;
    Ok(())
}

#[cfg(test)]
mod tests {
    use super::*;
    use std::test::Fail;

    #[test]
    fn two_clients_and_one(rt: HostRuntime) -> Result<(), Fail> {
        let two = arbiter(rt.alloc(), 2)?;
        let expected =
            b"INFO {\n  TITLE: \"Arbiter for 2 clients\"\n  SEMANTICS: Mealy\n  TARGET: Mealy\n}\nMAIN {\n  INPUTS {\n    r0;\n    r1;\n  }\n  OUTPUTS {\n    g0;\n    g1;\n  }\n  ASSERT {\n    !(g0 && g1);\n  }\n  GUARANTEE {\n    G (r0 -> F g0);\n    G (r1 -> F g1);\n  }\n}\n";
        assert_eq!(rt; two.as_slice(), expected.as_slice());
        let one = arbiter(rt.alloc(), 1)?;
        let expected =
            b"INFO {\n  TITLE: \"Arbiter for 1 clients\"\n  SEMANTICS: Mealy\n  TARGET: Mealy\n}\nMAIN {\n  INPUTS {\n    r0;\n  }\n  OUTPUTS {\n    g0;\n  }\n  ASSERT {\n  }\n  GUARANTEE {\n    G (r0 -> F g0);\n  }\n}\n";
        assert_eq!(rt; one.as_slice(), expected.as_slice());
        Ok(())
    }
}
