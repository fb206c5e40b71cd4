//! What crosses threads: a job on its way to a thread, and its image on the way back.

use crate::Job;
use pld_base::NoMemory;
use pld_image::Image;

fn may_cross<T: Send>() {}

fn jobs_cross() {
    may_cross::<Job>();
    may_cross::<Result<Image, NoMemory>>();
}
