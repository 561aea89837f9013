use vn_cksum::{sum16, sum16_parts};

const OCTETS: usize = 1500;

/// The sum of the sums of 1,500 octets in each round. Each sum changes one of them.
pub fn folded_sums(rounds: u64) -> u16 {
    let mut octets = [0; OCTETS];
    for (place, octet) in octets.iter_mut().enumerate() {
        *octet = (place % 251) as u8;
    }
    let mut folded: u16 = 0;
    for round in 0..rounds {
        let sum = sum16(&octets);
        octets[(round % 1500) as usize] = (sum % 256) as u8;
        folded = sum16_parts(&folded.to_be_bytes(), &sum.to_be_bytes());
    }
    folded
}
