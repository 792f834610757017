use rand_core::Rng;
use rand_pcg::Lcg64Xsh32;
use vehicle_draw::draw;

/// The generator's first words are 2,707,161,783 and 2,068,313,097, and its fifth is 0xbfa4784b.
#[test]
fn draws_two_words(rt: HostRuntime) {
    let mut rng = Lcg64Xsh32::new(42, 54);
    let (v, w) = draw(&mut rng, 250);
    let (one, other) = draw(&mut rng, 1);
    assert_eq!(&rt;
        [v, w, one, other, rng.next_u32()],
        [34, 98, 1, 1, 0xbfa4784b]
    );
}
