//! Laws over any store are so at one.

use ob_mem::MemStore;

#[test]
fn laws_of_images_over_a_store() {
    ob_stand::ends_leave::<MemStore>();
    ob_stand::appends_leave::<MemStore>();
    ob_stand::opens_leave::<MemStore>();
    ob_stand::sound_after::<MemStore>();
}
