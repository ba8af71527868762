// Each letter and its percentile.
use ranking::letters::percent_of;

#[test]
fn each_letter_has_its_percentile(rt: HostRuntime) {
    assert_eq!(rt; percent_of('d'), Some(85));
    assert_eq!(rt; percent_of('a'), Some(50));
    assert_eq!(rt; percent_of('b'), Some(45));
    assert_eq!(rt; percent_of('y'), Some(45));
    assert_eq!(rt; percent_of('z'), Some(50));
    assert_eq!(rt; percent_of('u'), Some(90));
    assert_eq!(rt; percent_of('t'), Some(50));
}

#[test]
fn another_character_has_none(rt: HostRuntime) {
    assert_eq!(rt; percent_of('c'), None);
    assert_eq!(rt; percent_of('D'), None);
    assert_eq!(rt; percent_of(' '), None);
    assert_eq!(rt; percent_of('é'), None);
}
