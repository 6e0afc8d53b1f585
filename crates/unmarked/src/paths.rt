// A packet on its way from timing node to timing node, by the TTL at each (document 02, W-208).

// Five hops from ingress to egress: 192.0.2.1, an interface of 192.0.2.3, 192.0.2.2, 192.0.2.3 and
// 192.0.2.1 again.
const HOPS: [u8; 44] =
    *b"\x01\x08\0\0\xC0\0\x02\x01\x03\x0C\0\0\xC0\0\x02\x03\0\0\0\x09\x01\x08\0\0\xC0\0\x02\x02\x01\x08\x07\x07\xC0\0\x02\x03\x01\x08\0\0\xC0\0\x02\x01";

// RTM_SET from egress to ingress: 192.0.2.1 and 192.0.2.3, with other reserved octets.
const SET: [u8; 16] = *b"\x01\x08\x05\x05\xC0\0\x02\x01\x01\x08\0\0\xC0\0\x02\x03";

pub(crate) fn run(rt: &impl Print) {
    let _ = print!(rt; "from timing node to timing node");
    let mut position = 0;
    for _ in 0..3 {
        match label_stack::next_ttl(&HOPS, &SET, position) {
            Ok(ttl) => {
                let _ = print!(rt; ", ttl {ttl}");
                position += usize::from(ttl);
            }
            Err(refusal) => {
                let _ = print!(rt; ", {refusal}");
            }
        }
    }
    let _ = println!(rt; "");
}
