mod device_files;
mod pages;
mod parts;
mod rows;
mod sizes;
mod traces;
