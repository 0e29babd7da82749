use super::*;
use std::alloc::{AllocError, Global};
use std::process::Abort;
use std::test::Fail;
use tlsf_lex::LexFault;
use word_core::Target;

/// The text of a specification with these inputs, outputs and sections.
fn frame(alloc: Global, inputs: &str, outputs: &str, rest: &str) -> Result<String, AllocError> {
    let mut text = String::from_str(alloc, "INFO{SEMANTICS:Mealy TARGET:Mealy}MAIN{INPUTS{")?;
    text.push_str(inputs)?;
    text.push_str("}OUTPUTS{")?;
    text.push_str(outputs)?;
    text.push_str("}")?;
    text.push_str(rest)?;
    text.push_str("}")?;
    Ok(text)
}

fn assert_fault(rt: &impl Abort, alloc: Global, text: &str, fault: TextFault, at: usize) {
    match read_spec(alloc, text.as_bytes(), false) {
        Err(TextError::Fault { what, place }) => {
            assert_eq!(rt; what, fault);
            assert_eq!(rt; place, at);
        }
        _ => rt.panic("no fault"),
    }
}

#[test]
fn faults_of_whole_texts(rt: HostRuntime) -> Result<(), Fail> {
    use TextFault::{Expected, FullFormat, Lex, MissingPart, MixedTarget};
    let table = [
        ("", MissingPart(Part::Info), 0),
        ("INFO{/* x", Lex(LexFault::OpenComment), 5),
        ("/* */*/", Lex(LexFault::BadByte), 6),
        ("[", FullFormat, 0),
        ("INFO", Expected, 4),
        ("INFO{}", MissingPart(Part::Semantics), 5),
        ("INFO{SEMANTICS:Mealy}", MissingPart(Part::Target), 20),
        ("INFO{TARGET:Moore}", MissingPart(Part::Semantics), 17),
        ("INFO{TITLE:\"a\"TITLE:\"b\"", Expected, 14),
        ("INFO{TAGS:a b", Expected, 12),
        ("INFO{SEMANTICS:Mealy,Moore", Expected, 21),
        ("INFO{SEMANTICS:Strict,Strict", Expected, 22),
        (
            "INFO{SEMANTICS:Mealy TARGET:Mealy}",
            MissingPart(Part::Main),
            34,
        ),
        ("INFO{SEMANTICS:Mealy TARGET:Mealy}GLOBAL", FullFormat, 34),
        (
            "INFO{SEMANTICS:Mealy TARGET:Mealy}MAIN{}",
            MissingPart(Part::Inputs),
            39,
        ),
        (
            "INFO{SEMANTICS:Mealy TARGET:Mealy}MAIN{INPUTS{}}",
            MissingPart(Part::Outputs),
            47,
        ),
        (
            "INFO{SEMANTICS:Moore TARGET:Mealy}MAIN{INPUTS{}OUTPUTS{}}",
            MixedTarget,
            28,
        ),
    ];
    for (text, fault, place) in table {
        assert_fault(&rt, rt.alloc(), text, fault, place);
    }
    Ok(())
}

#[test]
fn faults_of_second_parts(rt: HostRuntime) -> Result<(), Fail> {
    use TextFault::{DuplicateSignal, Expected, FullFormat, NeedsParens, UnknownSignal};
    let table = [
        ("a;b;c;", "", "ASSERT{a U b && c;}", NeedsParens, 75),
        ("r;", "r;", "", DuplicateSignal, 57),
        ("r;", "g;", "ASSERT{q;}", UnknownSignal, 67),
        ("r;", "g;", "ASSERT{X[2] g;}", FullFormat, 68),
        ("r;", "g;", "} r", Expected, 62),
        ("r;", "g;", "} 1", FullFormat, 62),
        ("r;", "g;", "INPUTS{}", Expected, 60),
        ("r", "g;", "", Expected, 47),
        ("r;", "g U", "", Expected, 59),
        ("r;", "g;", "ASSERT{r", Expected, 68),
        ("r;", "g;", "ASSERT{r g;}", Expected, 69),
        ("r;", "g;", "ASSERT{U;}", Expected, 67),
        ("r;", "g;", "ASSERT{(r;}", Expected, 69),
        ("r;", "g;", "ASSERT{r && ;}", Expected, 72),
        ("r;", "g;", "ASSERT{r -> g U r;}", NeedsParens, 74),
        ("r;", "g;", "ASSERT{(r U g R r);}", NeedsParens, 74),
        ("r;", "g;", "ASSERT{r || g <-> r;}", NeedsParens, 74),
        ("r;", "g;", "ASSERT{q;} REQUIRE{s;}", UnknownSignal, 67),
    ];
    for (inputs, outputs, rest, fault, place) in table {
        let text = frame(rt.alloc(), inputs, outputs, rest)?;
        assert_fault(&rt, rt.alloc(), text.as_str(), fault, place);
    }
    Ok(())
}

/// So many times the same text, and another behind it.
fn repeated(alloc: Global, count: usize, one: &str, last: &str) -> Result<String, AllocError> {
    let mut text = String::from_str(alloc, "ASSERT{")?;
    for _ in 0..count {
        text.push_str(one)?;
    }
    text.push_str(last)?;
    Ok(text)
}

fn assert_read(rt: &impl Abort, alloc: Global, text: &str) {
    if read_spec(alloc, text.as_bytes(), false).is_err() {
        rt.panic("not read");
    }
}

#[test]
fn nesting(rt: HostRuntime) -> Result<(), Fail> {
    use TextFault::{NeedsParens, TooDeep};
    let alloc = rt.alloc();
    let deepest = repeated(alloc, 256, "!", "g;}")?;
    assert_read(
        &rt,
        alloc,
        frame(alloc, "r;", "g;", deepest.as_str())?.as_str(),
    );
    let deeper = repeated(alloc, 257, "!", "g;}")?;
    assert_fault(
        &rt,
        alloc,
        frame(alloc, "r;", "g;", deeper.as_str())?.as_str(),
        TooDeep,
        323,
    );
    let arrows = repeated(alloc, 256, "g->", "g;}")?;
    assert_read(
        &rt,
        alloc,
        frame(alloc, "r;", "g;", arrows.as_str())?.as_str(),
    );
    let more = repeated(alloc, 257, "g->", "g;}")?;
    assert_fault(
        &rt,
        alloc,
        frame(alloc, "r;", "g;", more.as_str())?.as_str(),
        TooDeep,
        836,
    );
    let both = repeated(alloc, 256, "(", "g U g ->")?;
    assert_fault(
        &rt,
        alloc,
        frame(alloc, "r;", "g;", both.as_str())?.as_str(),
        NeedsParens,
        329,
    );
    Ok(())
}

/// The names `a0;` and so on.
fn many_names(alloc: Global, count: usize) -> Result<String, AllocError> {
    let mut names = String::new(alloc);
    for number in 0..count {
        let name = format!(in alloc; "a{number};")?;
        names.push_str(name.as_str())?;
    }
    Ok(names)
}

#[test]
fn forty_signals_and_one_more(rt: HostRuntime) -> Result<(), Fail> {
    let alloc = rt.alloc();
    let most = many_names(alloc, 40)?;
    assert_read(&rt, alloc, frame(alloc, most.as_str(), "", "")?.as_str());
    let more = many_names(alloc, 41)?;
    let text = frame(alloc, more.as_str(), "", "")?;
    assert_fault(&rt, alloc, text.as_str(), TextFault::TooManySignals, 196);
    Ok(())
}

#[test]
fn cut_texts(rt: HostRuntime) -> Result<(), Fail> {
    let alloc = rt.alloc();
    let text = frame(alloc, "r;", "g;", "ASSERT{g <-> r;}")?;
    let bytes = text.as_bytes();
    assert_eq!(rt; bytes.len(), 77);
    for len in 0..77 {
        if read_spec(alloc, &bytes[..len], false).is_ok() {
            rt.panic("read");
        }
    }
    Ok(())
}

fn assert_spec(rt: &impl Abort, alloc: Global, text: &str, inputs: usize, formula: &str) {
    let Ok(spec) = read_spec(alloc, text.as_bytes(), true) else {
        rt.panic("not read");
    };
    assert_eq!(rt; spec.names.inputs.len(), inputs);
    assert!(rt; matches!(spec.names.target, Target::Moore));
    let Ok(found) = format!(in alloc; "{:?}", spec.formula) else {
        rt.panic("out of memory");
    };
    assert_eq!(rt; found.as_str(), formula);
}

#[test]
fn formulas(rt: HostRuntime) -> Result<(), Fail> {
    let alloc = rt.alloc();
    let text =
        "INFO{SEMANTICS:Mealy,Strict TARGET:Moore}MAIN{OUTPUTS{g;}REQUIRE{r;}ASSERT{false;}INPUTS{r;}}";
    let weak = "Weak(Boxed { inner: False }, Boxed { inner: Not(Boxed { inner: Signal(0) }) })";
    let assumed =
        "Boxed { inner: All(Items { items: [Globally(Boxed { inner: Signal(0) }), True] }) }";
    let strict = format!(in alloc;
        "Implies(Boxed {{ inner: True }}, Boxed {{ inner: All(Items {{ items: [True, {weak}, Implies({assumed}, Boxed {{ inner: True }})] }}) }})"
    )?;
    assert_spec(&rt, alloc, text, 1, strict.as_str());
    let text =
        "INFO{SEMANTICS:Moore TARGET:Moore}MAIN{INPUTS{Mealy;}OUTPUTS{b;c;}GUARANTEE{Mealy U b;X c;}}";
    let until = "Until(Boxed { inner: Signal(0) }, Boxed { inner: Signal(1) })";
    let owed = format!(in alloc;
        "All(Items {{ items: [{until}, Next(Boxed {{ inner: Signal(2) }})] }})"
    )?;
    let always = "Globally(Boxed { inner: True })";
    let plain = format!(in alloc;
        "Implies(Boxed {{ inner: True }}, Boxed {{ inner: All(Items {{ items: [True, Implies(Boxed {{ inner: All(Items {{ items: [{always}, True] }}) }}, Boxed {{ inner: All(Items {{ items: [{always}, {owed}] }}) }})] }}) }})"
    )?;
    assert_spec(&rt, alloc, text, 1, plain.as_str());
    Ok(())
}
