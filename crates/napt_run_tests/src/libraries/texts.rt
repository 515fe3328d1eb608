//! Texts of parts of a configuration. Whole configurations are rows of `tests/calls`.

use napt_config::{Address, ConfigFault, Prefix, TransportAddress};
use std::test::Fail;

#[test]
fn texts_of_parts(rt: HostRuntime) -> Result<(), Fail> {
    let address = "203.0.113.1".parse::<Address>()?;
    assert_eq!(rt; address.0, 0xCB00_7101);
    assert_eq!(rt; address.to_string(rt.alloc())?.as_str(), "203.0.113.1");
    assert_eq!(rt; "10.0.0".parse::<Address>(), Err(ConfigFault::BadAddress));
    let prefix = "172.16.0.0/12".parse::<Prefix>()?;
    assert!(rt; prefix.contains(0xAC1F_FFFF));
    assert_eq!(rt; prefix.to_string(rt.alloc())?.as_str(), "172.16.0.0/12");
    assert_eq!(rt; "10.0.0.0/".parse::<Prefix>(), Err(ConfigFault::BadPrefix));
    let inside = "10.0.0.3:7000".parse::<TransportAddress>()?;
    assert_eq!(rt; (inside.address(), inside.port()), (0x0A00_0003, 7000));
    assert_eq!(rt; inside.to_string(rt.alloc())?.as_str(), "10.0.0.3:7000");
    let refused = "10.0.0.3 10.0.0.3:0 10.0.0.3:065 10.0.0.3:65536 10.0.0.3:+1 :1";
    for text in refused.split(' ') {
        let found = text.parse::<TransportAddress>();
        assert_eq!(rt; found, Err(ConfigFault::BadAddress), "{text}");
    }
    Ok(())
}
