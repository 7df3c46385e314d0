use crate::tables::{Asking, Question, assert_table};
use addresses::{Addr, number};
use std::alloc::{AllocError, Global};

#[derive(Clone, Copy)]
struct Addresses;

impl Asking for Addresses {
    type Fault = AllocError;

    fn print(self, _alloc: Global, row: Question<'_>, out: &mut String) -> Result<(), AllocError> {
        match row.word {
            "number" => match number(row.text.as_bytes()) {
                Some(number) => write!(out, "{number}"),
                None => out.push_str("none"),
            },
            "address" => match Addr::parse(row.text.as_bytes()) {
                Some(address) => write!(out, "{address} {}", address.0),
                None => out.push_str("none"),
            },
            _ => match Addr::parse_with_port(row.text.as_bytes()) {
                Some((address, port)) => write!(out, "{address} {port}"),
                None => out.push_str("none"),
            },
        }
    }
}

// Numbers, addresses with their number, and addresses with a port.
const TABLE: &str = "
number¦0¦¦0
number¦0012¦¦12
number¦4294967295¦¦4294967295
number¦¦¦none
number¦4294967296¦¦none
number¦-1¦¦none
number¦1 ¦¦none
number¦a¦¦none
address¦10.0.0.1¦¦10.0.0.1 167772161
address¦010.0.0.001¦¦10.0.0.1 167772161
address¦255.255.255.255¦¦255.255.255.255 4294967295
address¦¦¦none
address¦1.2.3¦¦none
address¦1.2.3.4.5¦¦none
address¦1.2.3.256¦¦none
address¦1..2.3¦¦none
address¦1.2.3.¦¦none
address¦ 1.2.3.4¦¦none
port¦1.2.3.4:1¦¦1.2.3.4 1
port¦01.2.3.4:00427¦¦1.2.3.4 427
port¦1.2.3.4:65535¦¦1.2.3.4 65535
port¦¦¦none
port¦1.2.3.4¦¦none
port¦1.2.3.4:¦¦none
port¦1.2.3.4:0¦¦none
port¦1.2.3.4:65536¦¦none
port¦1.2.3.4:5:6¦¦none
port¦1.2.3.4::5¦¦none
port¦:5¦¦none
port¦1.2.3.256:5¦¦none
port¦1.2.3:5¦¦none
";

#[test]
fn addresses_are_four_octets(rt: HostRuntime) {
    assert_table(&rt, rt.alloc(), Addresses, TABLE);
}
