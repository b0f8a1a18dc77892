// Known values of the check and of parity.
use octets::{character_of, is_odd, octet_of};

// Values that others have published for this check; that of CB 37 hex is sent low octet first: 3E, then 6B.
#[test]
fn known_checks(rt: HostRuntime) {
    let sent = octets::check(&[0xCB, 0x37]);
    assert!(rt;
        octets::check(&[0x01]) == 0x1189
            && octets::check(&[0x80]) == 0x8408
            && octets::check(b"123456789") == 0x2189
            && sent.to_le_bytes() == [0x3E, 0x6B]
    );
}

// SOH, STX, ETX, NAK, ETB, DEL, `2` and `A` with their parity.
#[test]
fn known_parity(rt: HostRuntime) {
    for octet in &[0x01, 0x02, 0x83, 0x15, 0x97, 0x7F, 0x32, 0xC1] {
        assert!(rt;
            octet_of(character_of(*octet)) == *octet && is_odd(*octet) && !is_odd(*octet ^ 0x80)
        );
    }
}
