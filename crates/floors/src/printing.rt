// How calls and refusals are printed, and how grades are numbered.
use checker::calls::Call;
use site::faults::{Fault, enough};
use site::grades::{Grade, NoGrade};
use site::sheets::Row;
use std::test::Fail;

#[test]
fn prints_refusals(rt: HostRuntime) -> Result<(), Fail> {
    assert!(rt;
        format!(in rt.alloc(); "{}", Fault::GradeRange { at: 3 })?.as_str() == "refused 4 at 3"
    );
    assert!(rt; format!(in rt.alloc(); "{}", Fault::Blank)?.as_str() == "refused 14 at 0");
    Ok(())
}

#[test]
fn prints_calls(rt: HostRuntime) -> Result<(), Fail> {
    assert!(rt; format!(in rt.alloc(); "{}", Call::Place { state: 2 })?.as_str() == "place 2");
    assert!(rt; format!(in rt.alloc(); "{}", Call::Book { event: 1 })?.as_str() == "book 1");
    assert!(rt;
        format!(in rt.alloc(); "{}", Call::Objection { command: 0 })?.as_str() == "objection 0"
    );
    Ok(())
}

#[test]
fn numbers_grades(rt: HostRuntime) {
    assert!(rt; u8::from(Grade::Confirmed) == 0 && u8::from(Grade::Ordinary) == 2);
    assert!(rt; Grade::try_from(1) == Ok(Grade::Doubted));
    assert!(rt; Grade::try_from(3) == Err(NoGrade { number: 3 }));
    assert!(rt; Row::default().grade == Grade::Ordinary);
}

#[test]
fn tells_short_slices(rt: HostRuntime) {
    assert!(rt; enough(4, 4) == Ok(()));
    assert!(rt; enough(3, 4) == Err(Fault::TooShort { needed: 4 }));
}
