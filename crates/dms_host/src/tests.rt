use crate::StdinSource;
use dms_site::Source;
use std::test::Fail;

#[test]
fn takes_standard_input_to_its_end(rt: HostRuntime) -> Result<(), Fail> {
    let mut source = StdinSource::new(rt.clone()?);
    let mut into = [0u8; 8];
    let mut ended = false;
    for _turn in 0..1000 {
        let count = source.take(&mut into).expect(&rt, "input");
        assert!(rt; count <= 8);
        if count == 0 {
            ended = true;
            break;
        }
    }
    assert!(rt; ended);
    Ok(())
}
